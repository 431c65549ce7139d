//! What answers found, and its head.
ghost use Rattle.std.specs.Prelude.{◌≡◌, ◌<◌, ◌^◌, codes, IfOk};
ghost use Rattle.std.specs.List.{list_any};
ghost use Rattle.hc_text.specs.Elements.{elements};
ghost use Rattle.hc_fields.specs.FirstValues.{elements_in};
ghost use Rattle.hc_record.specs.Head.{IsSmallTotal};
ghost use Rattle.hc_record.specs.Plain.{plain};
ghost use Rattle.hc_model.specs.Heads.{varied_by};
ghost use Rattle.hc_state.specs.Founding.{MayFound, founded_as, is_named_by};

use hc_event::{Request, Response};
use hc_fields::Fields;
use hc_record::{Kind, StoredHead, joining_tag};
use hc_text::{Key, NoMemory, next_item};

/// What an answer founds.
#[derive(Drop)]
pub struct Founding {
    pub key: Key,
    pub head: StoredHead,
    /// Others read it with its consumer.
    pub shared: bool,
    /// From where its consumer reads it.
    pub lo: u64,
    /// To where, if that is known.
    pub hi: Option<u64>,
}

/// The head of what an answer founds that was asked for and came at these moments (RFC 9111 section
/// 3.1). Its length stands beside its fields.
pub fn founded_head(
    request: &Request,
    response: &Response,
    requested: u64,
    answered: u64,
    kind: Kind,
    total: Option<u64>,
) -> Result<StoredHead, NoMemory>
    requires may { MayFound response.now }
    requires requested { requested < 2 ^ 62 }
    requires answered { answered < 2 ^ 62 }
    requires total { IsSmallTotal total }
    ensures { IfOk result (λ head. plain head
        ≡ founded_as requested answered kind total request.now response.now) }
{
    let mut fields = response.fields.copy()?;
    fields.remove(b"content-range");
    fields.remove(b"content-length");
    // That their count is a `usize` is known once it is asked for.
    let _count = fields.len();
    let joining = joining_tag(fields.allocator(), &fields)?;
    let vary_fields = varied(&request.fields, &response.fields)?;
    let _varied = vary_fields.len();
    Ok(StoredHead {
        kind,
        total,
        status: response.status,
        requested,
        answered,
        joining,
        vary_fields,
        fields,
    })
}

/// The fields of a request that Vary names (RFC 9111 section 4.1).
fn varied(asked: &Fields, reported: &Fields) -> Result<Fields, NoMemory>
    ensures { IfOk result (λ fields. fields ≡ varied_by asked.now reported.now) }
{
    let mut fields = asked.copy()?;
    for i in 0..asked.len() {
        let (name, _) = asked.at(i);
        if !is_varied(reported, name) {
            fields.remove(name);
        }
    }
    Ok(fields)
}

const VARY: &[u8] = b"vary";

/// Whether Vary names the field.
fn is_varied(reported: &Fields, name: &[u8]) -> bool
    ensures { result ≡ list_any (is_named_by name.now) (elements_in (codes "vary") reported.now) }
{
    for i in 0..reported.count(VARY) {
        if lists(reported.value(VARY, i).unwrap(), name) {
            return true;
        }
    }
    false
}

/// Whether an element of the list is the name.
fn lists(list: &[u8], name: &[u8]) -> bool
    ensures { result ≡ list_any (is_named_by name.now) (elements list.now) }
{
    let mut from = 0;
    while let Some(item) = next_item(list, from) {
        if list[item.start..item.end].eq_ignore_ascii_case(name) {
            return true;
        }
        from = item.next;
    }
    false
}
