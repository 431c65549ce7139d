//! The keys, and the requests of consumers that start.
ghost use Rattle.std.specs.Prelude.{◌≡◌, ◌<◌, ◌≤◌, codes, IfOk, OnOk};
ghost use Rattle.hc_generate.specs.Requests.{drawn_fields, drawn_request, key_of, past_fields, past_request, range_from, range_text, size_of};

use crate::draws::Draws;
use hc_event::{Load, Request};
use hc_fields::{FieldError, Fields};
use hc_text::{Key, MethodName, NoMemory, write_number};
use std::alloc::Global;

/// How many keys there are.
pub(crate) const KEYS: u64 = 8;

/// How many bytes the representation of the key has.
fn size_of(i: u64) -> u64
    requires { i < KEYS }
    ensures size { result ≡ size_of i }
    ensures some { 0 < result }
{
    1000 * (i + 1)
}

/// The key of this number.
pub(crate) fn key_of(alloc: Global, i: u64) -> Result<Key, NoMemory>
    requires { i < KEYS }
    ensures { IfOk result (λ key. key ≡ key_of i) }
{
    let mut bytes = Vec::new(alloc);
    bytes.extend_from_slice(b"http://gen.test/d/")?;
    write_number(size_of(i), &mut bytes)?;
    Ok(Key { bytes })
}

/// A GET of a key that is drawn, one in four for a range of its bytes.
pub(crate) fn drawn_request(alloc: Global, draws: &mut Draws) -> Result<Request, NoMemory>
    ensures request { IfOk result (λ request. request ≡ drawn_request draws.old.state) }
    ensures draws { OnOk result (draws.new.state ≡ past_request draws.old.state) }
{
    let i = draws.below(KEYS);
    let fields = drawn_fields(alloc, size_of(i), draws)?;
    let key = key_of(alloc, i)?;
    let mut method = Vec::new(alloc);
    method.extend_from_slice(b"GET")?;
    Ok(Request {
        method: MethodName { bytes: method },
        key,
        load: Load::Normal,
        fields,
    })
}

/// The fields of a request for one of so many bytes.
fn drawn_fields(alloc: Global, size: u64, draws: &mut Draws) -> Result<Fields, NoMemory>
    requires { 0 < size }
    ensures fields { IfOk result (λ fields. fields ≡ drawn_fields size draws.old.state) }
    ensures draws { OnOk result (draws.new.state ≡ past_fields draws.old.state) }
{
    if draws.below(4) == 0 {
        let l = draws.below(size);
        return range_from(alloc, l);
    }
    Fields::new(alloc)
}

/// All bytes from this position on are asked for.
fn range_from(alloc: Global, l: u64) -> Result<Fields, NoMemory>
    ensures { IfOk result (λ fields. fields ≡ range_from l) }
{
    let text = range_text(alloc, l)?;
    let mut fields = Fields::new(alloc)?;
    match fields.append_checked(b"range", text.as_slice()) {
        Ok(()) => Ok(fields),
        Err(e) => match e {
            FieldError::NoMemory => Err(NoMemory),
            _ => unreachable!(),
        },
    }
}

/// That as the text of a Range field.
fn range_text(alloc: Global, l: u64) -> Result<Vec<u8>, NoMemory>
    ensures { IfOk result (λ text. text.items ≡ range_text l) }
{
    let mut text = Vec::new(alloc);
    text.extend_from_slice(b"bytes=")?;
    write_number(l, &mut text)?;
    text.push(b'-')?;
    Ok(text)
}
