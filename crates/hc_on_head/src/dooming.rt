//! Heads past the store that doom what is stored for their key.
ghost use Rattle.std.specs.Prelude.{◌≡◌, ◌≤◌, OnOk, OnErr};
ghost use Rattle.std.specs.HashMap.{hash_map_len};
ghost use Rattle.hc_event.specs.Acts.{act_list, spare};
ghost use Rattle.hc_stored.specs.Entries.{shelf_of};
ghost use Rattle.hc_state.specs.Stands.{AnswersDooming};
ghost use Rattle.hc_on_head.specs.Comings.{MayCome, IsPast};

use crate::arrival::Arrival;
use crate::doom::doom;
use crate::unstored::have_answer;
use hc_event::{Acts, Cause, Place, Response};
use hc_rules::HeadCase;
use hc_state::{Rows, stand};
use hc_store::Backend;
use hc_text::NoMemory;

/// The answer to an unsafe request, even a bad one, may have changed what is stored for its
/// key: that is doomed (RFC 9111 section 4.4).
pub(crate) fn take_dooming<B: Backend>(
    rows: &mut Rows<B>,
    case: HeadCase,
    heard: Arrival,
    response: &Response,
    out: &mut Acts,
) -> Result<(), NoMemory>
    requires comes { MayCome rows.old heard }
    requires past { IsPast rows.old heard case response.now }
    requires room { hash_map_len rows.old.consumers ≤ spare out.old }
    ensures answers { OnOk result (AnswersDooming rows.old rows.new (act_list out.old)
        (act_list out.new) heard.now heard.x response.now case) }
    ensures faults { (shelf_of rows.new.entries).faults ≡ (shelf_of rows.old.entries).faults }
    ensures kept { OnErr result (act_list out.new ≡ act_list out.old) }
{
    let key = rows.exchanges.opening(heard.x).unwrap().request.key.copy()?;
    if let HeadCase::DirectBad = case {
        // Its exchange is closed with those that are doomed.
        doom(rows, heard.now, &key, Some(heard.x), out);
        let down = Place::Down(Cause::BadHead(heard.x));
        stand(&mut rows.consumers, heard.c, down);
        return Ok(());
    }
    let answer = response.copy()?;
    doom(rows, heard.now, &key, None, out);
    have_answer(rows, heard, response, answer);
    Ok(())
}
