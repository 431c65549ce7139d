//! A consumer waits.
ghost use Rattle.std.specs.Prelude.{◌≡◌, ◌+◌, ◌≤◌, ◌++◌, ◌∷◌, []};
ghost use Rattle.hc_event.specs.Acts.{act_list, spare};
ghost use Rattle.hc_event.specs.declared.act.Act.TheVariants as act;

use hc_event::{Act, Acts, Wait};
use hc_on_leave::acts::put;

/// A consumer is to wait.
pub(crate) fn wait(c: u64, wait: Wait, out: &mut Acts)
    requires { 1 ≤ spare out.old }
    ensures acts { act_list out.new ≡ act_list out.old ++ act.Pending c wait ∷ [] }
    ensures room { spare out.new + 1 ≡ spare out.old }
{
    put(out, Act::Pending { c, wait });
}
