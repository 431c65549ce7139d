//! The bytes of acts, copied out.
ghost use Rattle.std.specs.Prelude.{◌≡◌, ◌+◌, ◌≤◌, ◌++◌, List, ℕ, length, min, take, drop};
ghost use Rattle.hc_fields.specs.Lines.{field_text, fields_text};
ghost use Rattle.hc_binary.specs.Numbers.{bytes_of};
ghost use Rattle.hc_binary.specs.Copies.{HoldsPrefix, Puts};

use hc_event::{Act, Request};
use hc_fields::Fields;

/// Copies as many of the bytes as fit behind the first `at` of a room, and says how many it has then.
pub fn put(bytes: &[u8], into: &mut [u8], at: usize) -> usize
    requires { at ≤ length into.old }
    ensures puts { Puts into.old at bytes.now into.new result }
    ensures within { result ≤ length into.new }
{
    let n = bytes.len().min(into.len() - at);
    into[at..at + n].copy_from_slice(&bytes[..n]);
    at + n
}

/// Copies the line of a field behind the first `at` of a room.
fn put_line(name: &[u8], value: &[u8], into: &mut [u8], at: usize) -> usize
    requires { at ≤ length into.old }
    ensures puts { Puts into.old at (field_text (name.now, value.now)) into.new result }
    ensures within { result ≤ length into.new }
{
    let at = put(name, into, at);
    let at = put(b": ", into, at);
    let at = put(value, into, at);
    put(b"\n", into, at)
}

/// Copies the lines of fields behind the first `at` of a room.
fn put_lines(fields: &Fields, into: &mut [u8], at: usize) -> usize
    requires { at ≤ length into.old }
    ensures puts { Puts into.old at (fields_text fields.now) into.new result }
    ensures within { result ≤ length into.new }
{
    let mut at = at;
    for i in 0..fields.len() {
        let (name, value) = fields.at(i);
        at = put_line(name, value, into, at);
    }
    at
}

fn method_of(request: &Request) -> &[u8]
    ensures { result.now ≡ request.now.method }
{
    request.method.bytes.as_slice()
}

fn target_of(request: &Request) -> &[u8]
    ensures { result.now ≡ request.now.key }
{
    request.key.bytes.as_slice()
}

/// Copies what a request says behind the first `at` of a room: its method, its target and the lines of its
/// fields.
fn put_request(request: &Request, into: &mut [u8], at: usize) -> usize
    requires { at ≤ length into.old }
    ensures puts { Puts into.old at
        (request.now.method ++ (request.now.key ++ fields_text request.now.fields))
        into.new result }
    ensures within { result ≤ length into.new }
{
    let at = put(method_of(request), into, at);
    let at = put(target_of(request), into, at);
    put_lines(&request.fields, into, at)
}

/// Copies the first of the bytes of an act, as many as fit, and says how many these are.
pub fn copy_act(act: &Act, into: &mut [u8]) -> usize
    ensures { HoldsPrefix into.new result (bytes_of act.now) }
{
    match act {
        Act::Opened { request, .. } => put_request(request, into, 0),
        Act::Shown { fields, .. } => put_lines(fields, into, 0),
        Act::Given { bytes, .. } => put(bytes.as_slice(), into, 0),
        _ => 0,
    }
}
