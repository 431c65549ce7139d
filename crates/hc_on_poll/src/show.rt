//! A head that is stored is shown.
ghost use Rattle.std.specs.Prelude.{◌≡◌, ◌≤◌, ◌<◌, ◌++◌, ◌∷◌, [], Some, None, nat_eq, true, IsSomeAnd, OnOk};
ghost use Rattle.std.specs.HashMap.{get};
ghost use Rattle.hc_event.specs.Acts.{act_list, spare};
ghost use Rattle.hc_event.specs.declared.act.Act.TheVariants as act;
ghost use Rattle.hc_record.specs.Plain.{plain};
ghost use Rattle.hc_stored.specs.Entries.{shelf_of};
ghost use Rattle.hc_stored.specs.Views.{admits};
ghost use Rattle.hc_model.specs.Moves.{span_to};
ghost use Rattle.hc_state.specs.Plans.{begin_of, end_of, IsShownPart, AnswersShowing};
ghost use Rattle.hc_state.specs.Frames.{AddsNoFault};
ghost use Rattle.hc_on_poll.specs.Ready.{IsCurrentWith, MayLeaveLine};

use hc_event::{Act, Acts, Response, Why};
use hc_on_leave::acts::put;
use hc_on_leave::leave::leave_line_in;
use hc_range::Span;
use hc_record::StoredHead;
use hc_state::{Rows, bind_shown};
use hc_store::Backend;
use hc_text::NoMemory;
use hc_validate::shown;

/// A consumer is bound to what is current, and shown its head.
pub(crate) fn bind<B: Backend>(
    rows: &mut Rows<B>,
    c: u64,
    r: u64,
    head: StoredHead,
    why: Why,
    span: Option<Span>,
    out: &mut Acts,
) -> Result<(), NoMemory>
    requires leaves { IsSomeAnd (get nat_eq rows.old.consumers c) (MayLeaveLine rows.old.keys c) }
    requires part { IsSomeAnd (get nat_eq rows.old.consumers c)
        (IsShownPart (plain head) span) }
    requires current { IsCurrentWith rows.old c r (plain head) }
    requires admits { admits c ((shelf_of rows.old.entries).kept r) ≡ true }
    requires room { 1 ≤ spare out.old }
    ensures answers { OnOk result (IsSomeAnd (get nat_eq rows.old.consumers c)
        (AnswersShowing rows.old rows.new (act_list out.old) (act_list out.new)
        c r (plain head) why span)) }
    ensures exchanges { OnOk result (rows.new.exchanges ≡ rows.old.exchanges) }
    ensures kept { AddsNoFault result rows.old rows.new (act_list out.old) (act_list out.new) }
{
    let consumer = rows.consumers.get(&c).unwrap();
    let (lo, hi) = bounds_of(span, head.total);
    let ranged = consumer.class.range.is_some();
    let shown = shown(head, why, span_to(lo, hi), ranged)?;
    rows.entries.bind(r, c)?;
    leave_line_in(&mut rows.keys, consumer, c);
    bind_shown(&mut rows.consumers, c, r, lo, hi);
    put_shown(c, r, why, shown, lo, hi, out);
    Ok(())
}

/// Where what is shown begins and ends: the interval, or all of it.
fn bounds_of(span: Option<Span>, total: Option<u64>) -> (u64, Option<u64>)
    ensures from { result.0 ≡ begin_of span }
    ensures to { result.1 ≡ end_of span total }
{
    match span {
        Some(span) => (span.lo, Some(span.hi)),
        None => (0, total),
    }
}

/// The interval, where its end is known.
pub(crate) fn span_to(lo: u64, hi: Option<u64>) -> Option<Span>
    ensures { result ≡ span_to lo hi }
{
    Some(Span { lo, hi: hi? })
}

/// A head is shown.
pub(crate) fn put_shown(
    c: u64,
    r: u64,
    why: Why,
    head: Response,
    lo: u64,
    hi: Option<u64>,
    out: &mut Acts,
)
    requires { 1 ≤ spare out.old }
    ensures { act_list out.new ≡ act_list out.old
        ++ act.Shown c r why head.status head.fields lo hi ∷ [] }
{
    put(
        out,
        Act::Shown {
            c,
            r,
            why,
            status: head.status,
            fields: head.fields,
            lo,
            hi,
        },
    );
}
