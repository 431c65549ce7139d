//! An event of a script.
ghost use Rattle.std.specs.Prelude.{◌≡◌, ◌↔◌, IsTrue};
ghost use Rattle.std.specs.List.{list_any};
ghost use Rattle.hc_wire.specs.Scripts.{IsScript, is_sized, is_got, is_got_by, is_behind, ends_once};

use crate::event::WireEvent;
use hc_text::Bytes;

/// An event at its moment, with the bytes of a `Got`.
#[derive(Debug, Drop)]
pub struct Scripted {
    /// In seconds since 1970.
    pub moment: u64,
    pub event: WireEvent,
    pub bytes: Bytes,
}

/// Whether each moment is below 2^62, each `Got` has as many bytes as it says, and some, no other event
/// has bytes, and behind the end of a connection nothing of it is got.
pub fn is_script(script: &[Scripted]) -> bool
    ensures { IsTrue result ↔ IsScript script.now }
{
    script.iter().all(|s| s.moment < 1 << 62)
        && script.iter().all(|s| is_sized(s.event, s.bytes.as_slice()))
        && ends_once(script)
}

/// Whether these are the bytes of such an event.
fn is_sized(event: WireEvent, bytes: &[u8]) -> bool
    ensures { result ≡ is_sized event bytes.now }
{
    match event {
        WireEvent::Got(_, n) => bytes.len() == n && 0 < n,
        _ => bytes.is_empty(),
    }
}

/// Whether bytes of the connection were got.
fn is_got(event: WireEvent, k: u64) -> bool
    ensures { result ≡ is_got_by k event }
{
    match event {
        WireEvent::Got(j, _) => j == k,
        _ => false,
    }
}

/// Whether bytes of the connection were got in one of these.
fn has_got(script: &[Scripted], k: u64) -> bool
    ensures { result ≡ list_any (is_got k) script.now }
{
    script.iter().any(|s| is_got(s.event, k))
}

/// Whether what comes behind the event isn't of a connection that it ended.
fn is_behind(event: WireEvent, rest: &[Scripted]) -> bool
    ensures { result ≡ is_behind event rest.now }
{
    match event {
        WireEvent::Ended(k) => !has_got(rest, k),
        _ => true,
    }
}

/// Whether nothing of a connection is got behind its end.
fn ends_once(script: &[Scripted]) -> bool
    ensures { result ≡ ends_once script.now }
{
    match script {
        [] => true,
        [first, rest @ ..] => is_behind(first.event, rest) && ends_once(rest),
    }
}
