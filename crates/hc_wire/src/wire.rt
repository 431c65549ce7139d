//! What a wire is.
ghost use Rattle.std.specs.Prelude.{◌≡◌, ◌+◌, ◌<◌, ◌≤◌, ◌^◌, ⊤, ℕ, Option, None, [], ◌==◌, nat_lt, length, take, drop, IfOk, OnOk, OnErr, if◌then◌else◌};
ghost use Rattle.std.specs.Result.{is_ok};

use crate::event::{Address, WireError, WireEvent};
use hc_text::Bytes;

/// The most events that a wire hands out.
pub const MOST_EVENTS: u64 = 1 << 45;

/// Connections of clients and to an origin, each with a number of its own.
///
/// WireFailed comes only where the count of faults rose in that call, and then nothing else changed.
/// Want of memory changes nothing and is no fault. At most 2^45 events are handed out, Quiet among them.
pub trait Wire {
    ghost use Rattle.hc_wire.specs.declared.event.WireEvent.TheVariants.{Quiet};
    ghost use Rattle.hc_wire.specs.Events.{Stage, Unseen, Fresh, with_stage, closed_of, reading_of, stages_after, IsOfOpen, FitsIn, got_bytes};
    ghost use Rattle.hc_wire.specs.Logs.{Log, Reports, with_binding, with_call, with_dialled, with_sent, with_reading, with_closed};
    ghost use Rattle.hc_wire.specs.Wires.{HasWireCause};

    /// How often a call has failed.
    ghost faults: { Self → ℕ };

    /// How many events were handed out.
    ghost events: { Self → ℕ };

    /// Which numbers were handed out, which of these connections are open, and of which bytes may come.
    ghost stages: { Self → ℕ → Stage };

    /// What was called and answered, if the wire tells it.
    ghost log: { Self → Option Log } = { λ _. None };

    /// No event is due, if the wire tells that.
    ghost idle: { Self → Type 0 } = { λ _. ⊤ };

    /// Listens at one address for clients, and dials the other, each where it is given.
    fn bind(&mut self, listen: Option<Address>, origin: Option<Address>) -> Result<(), WireError>
        ensures stages { (k : ℕ) → stages self.new k ≡ stages self.old k }
        ensures events { events self.new ≡ events self.old }
        ensures ok { OnOk result
            (Reports (log self.old) (log self.new) (with_binding listen origin)) }
        ensures err { OnErr result (log self.new ≡ log self.old) }
        ensures cause { HasWireCause (faults self.old) (faults self.new) result };

    /// The moment, in seconds since 1970, and what happened. Bytes that came stand first in `into`.
    /// Where nothing is due it may wait for that a while, if `wait` says so, and then it is Quiet.
    ///
    /// Bytes come only of a connection whose reading is on, and its end comes once, after all of them.
    fn next(&mut self, wait: bool, into: &mut [u8]) -> Result<(u64, WireEvent), WireError>
        requires { 0 < length into.old }
        ensures moment { IfOk result (λ p. p.0 < 2 ^ 62) }
        ensures of_open { IfOk result (λ p. IsOfOpen p.1 (stages self.old)) }
        ensures quiet { IfOk result (λ p. p.1 ≡ Quiet → idle self.old) }
        ensures fits { IfOk result (λ p. FitsIn p.1 (length into.old)) }
        ensures stages { IfOk result (λ p. (k : ℕ) → stages self.new k
            ≡ stages_after p.1 (stages self.old) k) }
        ensures ok { IfOk result (λ p. Reports (log self.old) (log self.new)
            (with_call wait p.0 p.1 (got_bytes p.1 into.new))) }
        ensures err { OnErr result (log self.new ≡ log self.old) }
        ensures err_stages { OnErr result ((k : ℕ) → stages self.new k ≡ stages self.old k) }
        ensures events { events self.new
            ≡ (if is_ok result then events self.old + 1 else events self.old) }
        ensures in_all { events self.new ≤ 2 ^ 45 }
        ensures cause { HasWireCause (faults self.old) (faults self.new) result };

    /// A new connection to the origin. One that is refused comes as `Broke`.
    fn dial(&mut self) -> Result<u64, WireError>
        ensures fresh { IfOk result (λ k. stages self.old k ≡ Unseen) }
        ensures stages { IfOk result (λ k. (j : ℕ) → stages self.new j
            ≡ with_stage k Fresh (stages self.old) j) }
        ensures ok { IfOk result (λ k. Reports (log self.old) (log self.new) (with_dialled k)) }
        ensures err { OnErr result (log self.new ≡ log self.old) }
        ensures err_stages { OnErr result ((k : ℕ) → stages self.new k ≡ stages self.old k) }
        ensures events { events self.new ≡ events self.old }
        ensures cause { HasWireCause (faults self.old) (faults self.new) result };

    /// How many bytes of the slice the connection takes; 0 of some means that it has no room now. One
    /// that is broken takes all, and comes as `Broke`.
    fn send(&mut self, k: u64, from: &[u8]) -> Result<usize, WireError>
        ensures within { IfOk result (λ n. n ≤ length from.now) }
        ensures stages { (j : ℕ) → stages self.new j ≡ stages self.old j }
        ensures ok { IfOk result (λ n. Reports (log self.old) (log self.new)
            (with_sent k (take n from.now) (nat_lt n (length from.now)))) }
        ensures err { OnErr result (log self.new ≡ log self.old) }
        ensures events { events self.new ≡ events self.old }
        ensures cause { HasWireCause (faults self.old) (faults self.new) result };

    /// As `send`, of the bytes of a list from a place on. Where the connection takes all of them, the
    /// list is empty afterwards, and else as before.
    fn hand(&mut self, k: u64, from: &mut Bytes, used: usize) -> Result<usize, WireError>
        requires { used ≤ length from.old }
        ensures within { IfOk result (λ n. n ≤ length (drop used from.old)) }
        ensures stages { (j : ℕ) → stages self.new j ≡ stages self.old j }
        ensures ok { IfOk result (λ n. Reports (log self.old) (log self.new) (with_sent k
            (take n (drop used from.old)) (nat_lt n (length (drop used from.old))))) }
        ensures err { OnErr result (log self.new ≡ log self.old) }
        ensures left { IfOk result (λ n. from.new
            ≡ (if n == length (drop used from.old) then [] else from.old)) }
        ensures kept { OnErr result (from.new ≡ from.old) }
        ensures events { events self.new ≡ events self.old }
        ensures cause { HasWireCause (faults self.old) (faults self.new) result }
    {
        let left = from.len() - used;
        let n = self.send(k, &from.as_slice()[used..])?;
        if n == left {
            *from = Bytes::new();
        }
        Ok(n)
    }

    /// Whether bytes of the connection may be handed out. At first they may.
    fn reads(&mut self, k: u64, on: bool)
        ensures stages { (j : ℕ) → stages self.new j
            ≡ with_stage k (reading_of on (stages self.old k)) (stages self.old) j }
        ensures log { Reports (log self.old) (log self.new) (with_reading k on) }
        ensures events { events self.new ≡ events self.old }
        ensures faults { faults self.new ≡ faults self.old };

    /// No more events come of the connection.
    fn close(&mut self, k: u64)
        ensures stages { (j : ℕ) → stages self.new j
            ≡ with_stage k (closed_of (stages self.old k)) (stages self.old) j }
        ensures log { Reports (log self.old) (log self.new) (with_closed k) }
        ensures events { events self.new ≡ events self.old }
        ensures faults { faults self.new ≡ faults self.old };
}
