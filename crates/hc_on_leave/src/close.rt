//! What nobody reads any more is closed.
ghost use Rattle.std.specs.Prelude.{◌≡◌, ◌+◌, ◌≤◌, ◌<◌, ◌++◌, ◌∷◌, [], true};
ghost use Rattle.hc_event.specs.Acts.{act_list, spare};
ghost use Rattle.hc_event.specs.declared.act.Act.TheVariants as act;
ghost use Rattle.hc_exch.specs.Exchanges.{table_of, Becomes};
ghost use Rattle.hc_exch.specs.Known.{is_open, without_exchange};
ghost use Rattle.hc_state.specs.Stands.{KeepsRest};

use crate::acts::put;
use hc_event::{Act, Acts};
use hc_state::Rows;
use hc_store::Backend;

/// An exchange is closed. What is held of it stays.
pub fn close<B: Backend>(rows: &mut Rows<B>, x: u64, out: &mut Acts)
    requires running { is_open x (table_of rows.old.exchanges) ≡ true }
    requires room { 1 ≤ spare out.old }
    ensures acts { act_list out.new ≡ act_list out.old ++ act.Close x ∷ [] }
    ensures room { spare out.new + 1 ≡ spare out.old }
    ensures closed { Becomes without_exchange x rows.old.exchanges rows.new.exchanges }
    ensures consumers { rows.new.consumers ≡ rows.old.consumers }
    ensures rest { KeepsRest rows.old rows.new }
{
    put(out, Act::Close { x });
    rows.exchanges.close(x);
}
