//! Two wires over sockets, one beside the other, and many bytes both ways.
use crate::fault::Fault;
use crate::pattern::Pattern;
use crate::side::{Manner, OFFER, PIECE, Side, TOTAL};
use crate::wires::bound;
use hc_wire::Wire;
use std::net::Net;
use std::rt::Clock;

/// How many turns there are, at most. Each moves some thousand bytes, or waits.
const TURNS: u32 = 1_000_000;

/// In how many turns in a row nothing comes, at most. Each waits some hundredths of a second.
const QUIET: u32 = 100;

/// Moves bytes both ways at once. Both sides offer more than the other takes, so that each is told that
/// there is no room. One closes the connection while bytes of it are held, and the other side is told
/// the end, behind all of them.
pub(crate) fn move_bytes<R: Net + Clock + AllocGlobal + Clone + Drop>(rt: &R) -> Result<(), Fault> {
    let (mut near, mut far) = connected(rt)?;
    let pattern = Pattern::new(rt.alloc(), OFFER)?;
    move_between(&mut near, &mut far, &pattern)
}

/// The same between these sides.
fn move_between<R: Net + Clock + AllocGlobal + Drop>(
    near: &mut Side<R>,
    far: &mut Side<R>,
    pattern: &Pattern,
) -> Result<(), Fault> {
    let mut into = [0; PIECE];
    let mut quiet = 0u32;
    for _ in 0..TURNS {
        let near_moved = near.turn(quiet > 0, pattern, &mut into)?;
        near.close_where_stuck();
        let far_moved = far.turn(quiet > 0, pattern, &mut into)?;
        quiet = if near_moved || far_moved {
            0
        } else {
            quiet.saturating_add(1)
        };
        if far.ended || quiet >= QUIET {
            break;
        }
    }
    judge(near, far)
}

/// The two sides of a connection.
fn connected<R: Net + Clock + AllocGlobal + Clone + Drop>(
    rt: &R,
) -> Result<(Side<R>, Side<R>), Fault> {
    let (near, mut far) = bound(rt, 20_000)?;
    let k = far.dial()?;
    Ok((
        Side::new(rt.alloc(), near, None, Manner::Pressing),
        Side::new(rt.alloc(), far, Some(k), Manner::Patient),
    ))
}

/// Whether all came, and sends took nothing at times.
fn judge<R: Net + Clock + AllocGlobal + Drop>(near: &Side<R>, far: &Side<R>) -> Result<(), Fault> {
    if !far.ended {
        return Err(Fault::NeverEnded);
    }
    if far.got != near.sent || near.got != TOTAL || far.sent != TOTAL {
        return Err(Fault::EndedEarly(far.got, near.sent));
    }
    if near.full == 0 || far.full == 0 {
        return Err(Fault::NeverFull);
    }
    Ok(())
}
