//! The step *polls*: each live consumer whose client was sent all is polled once.
ghost use Rattle.std.specs.Prelude.{◌≡◌, ◌+◌, ◌≤◌, ◌<◌, ◌^◌, length, drop, OnOk};
ghost use Rattle.std.specs.List.{list_any};
ghost use Rattle.hc_event.specs.Acts.{act_list};
ghost use Rattle.hc_sched.specs.Schedule.{IsSmall};
ghost use Rattle.hc_core.specs.Steps.{faults_in, steps};
ghost use Rattle.hc_proxy.specs.Keeping.{Frame, Turn, HasCache, StandsForSome, RestStays, PolledBy, KeepsHeard, KeepsPolled, IsHeard, Goes};
ghost use Rattle.hc_proxy.specs.Polls.{polled_all};
ghost use Rattle.hc_proxy.specs.Rows as rows;
ghost use Rattle.hc_proxy.specs.Waiting.{pends, pends_alone};

use crate::proxy::Proxy;
use hc_event::{Act, Event};
use hc_store::Backend;
use hc_text::NoMemory;

/// A poll wants at most so many bytes.
const WANT: u32 = 16_384;

impl<B: Backend> Proxy<B> {
    /// One poll of each live consumer whose client was sent all, in ascending order.
    pub(crate) fn polls(&mut self) -> Result<(), NoMemory>
        requires stands { ∥ IsHeard self.old ∥₁ }
        requires few { steps self.old.cache + 512 ≤ 2 ^ 60 }
        ensures goes { (t : Turn) (p : rows.Proxy) → KeepsHeard t self.old p
            → OnOk result (Goes (KeepsPolled t) (faults_in self.old.cache) self.new
            (polled_all t.frame.limits t.call p)) }
        ensures steps { OnOk result (steps self.new.cache ≤ steps self.old.cache + 512) }
    {
        self.round.clear();
        // The proof needs what `len` ensures: no more are listed than are connected.
        let _count = self.clients.len();
        self.clients.list_taking(&mut self.round)?;
        for i in 0..self.round.len() {
            let c = self.round[i];
            self.poll(c)?;
        }
        Ok(())
    }

    /// Polls one consumer.
    fn poll(&mut self, c: u64) -> Result<(), NoMemory>
        requires stands { ∥ StandsForSome self.old ∥₁ }
        requires numbered { IsSmall c }
        requires few { steps self.old.cache < 2 ^ 60 }
        ensures polled { OnOk result ((f : Frame) (p : rows.Proxy) → HasCache f self.old p
            → PolledBy f self.old self.new c p) }
        ensures rest { OnOk result (RestStays self.old self.new) }
        ensures steps { OnOk result (steps self.new.cache ≡ steps self.old.cache + 1) }
    {
        let first = self.step(Event::Poll { c, want: WANT })?;
        if self.pends(first) {
            return Ok(());
        }
        self.moved = true;
        Ok(())
    }

    /// Whether the acts from this place on tell that their consumer waits.
    fn pends(&self, first: usize) -> bool
        requires { first ≤ length (act_list self.now.acts) }
        ensures { result ≡ pends (drop first (act_list self.entry.now.acts)) }
    {
        any_pends(&self.acts.list()[first..])
    }
}

/// Whether one of the acts tells that its consumer waits.
fn any_pends(acts: &[Act]) -> bool
    ensures { result ≡ list_any pends_alone acts.now }
{
    acts.iter().any(|act| is_pending(act))
}

/// Whether the act tells so.
fn is_pending(act: &Act) -> bool
    ensures { result ≡ pends_alone act.now }
{
    matches!(act, Act::Pending { .. })
}
