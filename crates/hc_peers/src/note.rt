//! Telling the wire which connections are read.
ghost use Rattle.std.specs.Prelude.{◌≡◌, ℕ};
ghost use Rattle.hc_wire.specs.Logs.{Reports};
ghost use Rattle.hc_peers.specs.Offering.{reading_reported, stage_reported};

use hc_wire::Wire;

/// The wire is told to read a connection or not to, where it was told otherwise.
pub(crate) fn report_reading<W: Wire>(k: u64, reading: &mut bool, on: bool, wire: &mut W)
    ensures reading { reading.new ≡ on }
    ensures log { Reports (W.log wire.old) (W.log wire.new) (reading_reported k reading.old on) }
    ensures stages { (j : ℕ) → W.stages wire.new j
        ≡ stage_reported k reading.old on (W.stages wire.old) j }
    ensures events { W.events wire.new ≡ W.events wire.old }
    ensures faults { W.faults wire.new ≡ W.faults wire.old }
{
    if *reading == on {
        return;
    }
    *reading = on;
    wire.reads(k, on);
}
