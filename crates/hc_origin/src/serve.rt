//! The loop of the test origin.
ghost use Rattle.std.specs.Prelude.{◌≡◌, ◌≢◌, ℕ, IfSome};
ghost use Rattle.hc_sched.specs.declared.schedule.Ended.TheVariants as ended;
ghost use Rattle.hc_wire.specs.Events.{IsOpen};
ghost use Rattle.hc_wire.specs.Wires.{HasRisen};
ghost use Rattle.hc_origin.specs.Endings.{AnswersAs, IsFresh, MayEnd};
ghost use Rattle.hc_origin.specs.Stops.{ended_as, HasStopCause};

use crate::origin::Origin;
use crate::stop::Stop;
use hc_sched::Ended;
use hc_wire::Wire;
use std::alloc::Global;

/// So many bytes of a connection are handed out at once, at most.
const SLICE: usize = 16_384;

/// Answers as the test origin for so many turns, over a wire that is bound. Each turn waits for an event,
/// and offers every connection what it lacks. In the end all are closed.
pub fn origin_on<W: Wire>(alloc: Global, wire: &mut W, turns: u64) -> Ended
    requires fresh { IfSome (W.log wire.old) IsFresh }
    requires shut { (k : ℕ) → IsOpen (W.stages wire.old k) → ⊥ }
    ensures answers { AnswersAs turns (W.log wire.old) (W.log wire.new) result }

    // How it ends, also where the wire tells nothing of its calls.
    ensures ends { MayEnd result }
    ensures wire { result ≡ ended.WireFailed
        → HasRisen (W.faults wire.old) (W.faults wire.new) }
    ensures wire_calm { result ≢ ended.WireFailed → W.faults wire.new ≡ W.faults wire.old }
{
    match answer_all(alloc, wire, turns) {
        Ok(()) => Ended::Done,
        Err(stop) => stop.ended(),
    }
}

/// The same, up to what stops it.
fn answer_all<W: Wire>(alloc: Global, wire: &mut W, turns: u64) -> Result<(), Stop>
    requires fresh { IfSome (W.log wire.old) IsFresh }
    requires shut { (k : ℕ) → IsOpen (W.stages wire.old k) → ⊥ }
    ensures answers { AnswersAs turns (W.log wire.old) (W.log wire.new) (ended_as result) }
    ensures cause { HasStopCause (W.faults wire.old) (W.faults wire.new) result }
{
    let mut origin = Origin::new(alloc)?;
    let mut slice = [0; SLICE];
    for _turn in 0..turns {
        origin.turn(&mut slice, wire)?;
    }
    origin.close_all(wire);
    Ok(())
}
