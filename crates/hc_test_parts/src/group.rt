//! A writer group: who goes on alone once a write is refused.
use hc_test_frame::{Fault, Vector};
use hc_writers::Writers;
use std::alloc::Global;

/// Makes the call.
pub(crate) fn report_group(v: &Vector, to: &mut String) -> Result<(), Fault> {
    match v.call() {
        "group_survivor" => survivor(v.alloc(), to),
        _ => Err(Fault::NoSuchCall),
    }
}

/// Consumers 1 and 2 read what exchange 1 brings along. Two bytes are stored, and 2 has read both when
/// a write is refused. Writes who goes on, and who of them is a member then.
fn survivor(alloc: Global, to: &mut String) -> Result<(), Fault> {
    let mut group = Writers::new(alloc, 1, 1, 0)?;
    if group.holds(2) || group.alone() {
        return Err(Fault::NoSuchCall);
    }
    group.join(2)?;
    group.arrived(2);
    if !group.holds(2) {
        return Err(Fault::NoSuchCall);
    }
    group.moved(2, 2);
    let survivor = group.lost();
    write!(
        to,
        "{survivor:?}, 1 {}, 2 {}",
        group.holds(1),
        group.holds(2)
    )?;
    Ok(())
}
