//! The step *starts*: the next request of each client that waits for nothing is read.
ghost use Rattle.std.specs.Prelude.{◌≡◌, ◌+◌, ◌≤◌, ◌^◌, false, length, OnOk, IfOk};
ghost use Rattle.hc_core.specs.Steps.{faults_in, steps};
ghost use Rattle.hc_peers.specs.Clients.{ready_of};
ghost use Rattle.hc_proxy.specs.Keeping.{Turn, KeepsHeard, IsHeard, IsNext, first_ready, Goes};
ghost use Rattle.hc_proxy.specs.Rows as rows;
ghost use Rattle.hc_proxy.specs.Starts.{started_all, each_heard};

use crate::proxy::Proxy;
use hc_event::Event;
use hc_peers::NextRequest;
use hc_store::Backend;
use hc_text::NoMemory;

impl<B: Backend> Proxy<B> {
    /// For each client that waits for nothing and of which bytes came, in ascending order: its
    /// request is started or refused.
    pub(crate) fn starts(&mut self) -> Result<(), NoMemory>
        requires stands { ∥ IsHeard self.old ∥₁ }
        requires few { steps self.old.cache + 512 ≤ 2 ^ 60 }
        ensures goes { (t : Turn) (p : rows.Proxy) → KeepsHeard t self.old p
            → OnOk result (Goes (KeepsHeard t) (faults_in self.old.cache) self.new
            (started_all t.frame.limits t.call p)) }
        ensures steps { OnOk result (steps self.new.cache ≤ steps self.old.cache + 512) }
    {
        // The proof needs what `len` ensures: no more are ready than are connected.
        let _count = self.clients.len();
        while self.start_next()? {}
        Ok(())
    }

    /// Whether there was one more. Its consumer has the next number.
    fn start_next(&mut self) -> Result<bool, NoMemory>
        requires stands { ∥ IsHeard self.old ∥₁ }
        requires few { steps self.old.cache + length (ready_of self.old.clients) ≤ 2 ^ 60 }
        ensures next { IfOk result
            (λ more. IsNext more (ready_of self.old.clients) (ready_of self.new.clients)) }
        ensures goes { (t : Turn) (p : rows.Proxy) → KeepsHeard t self.old p
            → OnOk result (Goes (KeepsHeard t) (faults_in self.old.cache) self.new
            (each_heard t.frame.limits t.call (first_ready (ready_of self.old.clients)) p)) }
        ensures none { IfOk result (λ more. more ≡ false → self.new.cache ≡ self.old.cache) }
        ensures steps { OnOk result (steps self.new.cache ≤ steps self.old.cache + 1) }
    {
        let c = self.starts + 1;
        match self.clients.hear_next(c, self.front)? {
            NextRequest::Nobody => Ok(false),
            NextRequest::Nothing => Ok(true),
            NextRequest::Asks(_, request) => {
                self.starts = c;
                self.happen(Event::Start { c, request })?;
                Ok(true)
            }
        }
    }
}
