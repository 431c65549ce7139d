//! A round: what is drawn, and what comes of it.
ghost use Rattle.std.specs.Prelude.{◌≡◌, ◌+◌, ◌<◌, ◌≤◌, ◌^◌, IfOk, OnErr};

use crate::action::{Action, action_of};
use crate::exchange::owe;
use crate::generator::Generator;
use crate::request::{KEYS, drawn_request, key_of};
use hc_event::Event;
use hc_text::{NoMemory, item_at, leave_out, put_in};

/// So many consumers are live at most.
const MOST_LIVE: usize = 64;

/// A poll asks for so many bytes.
const WANT: u32 = 4096;

impl Generator {
    ghost use Rattle.hc_generate.specs.Rounds.{IsMade, IsRound, answer_move, cancel_move, doom_move, fault_move, poll_of_round, start_move, wait_move, IsBesidesDraws};

    /// A round. Where memory is refused the draws alone went on.
    pub(crate) fn round(&mut self, wanted: &[u64]) -> Result<Option<Event>, NoMemory>
        requires moment { self.old.moment + 30 < 2 ^ 62 }
        requires last { self.old.last + 1 < 2 ^ 62 }
        ensures ok { IfOk result (λ made. IsRound wanted.now self.old made self.new) }
        ensures err { OnErr result (IsBesidesDraws self.old self.new) }
        ensures moment_grows { self.new.moment ≤ self.old.moment + 30 }
        ensures last_grows { self.new.last ≤ self.old.last + 1 }
        ensures counts { self.new.counts ≡ self.old.counts }
    {
        match action_of(self.draws.below(100)) {
            Action::Start => self.start(),
            Action::Poll => Ok(self.poll()),
            Action::Bring => self.bring(wanted),
            Action::Cancel => Ok(self.cancel()),
            Action::Wait => {
                self.wait();
                Ok(None)
            }
            Action::Fault => Ok(self.fault(wanted)),
            Action::Doom => self.doom(),
        }
    }

    /// A consumer starts, where there is room for one more.
    fn start(&mut self) -> Result<Option<Event>, NoMemory>
        requires { self.old.last + 1 < 2 ^ 62 }
        ensures ok { IfOk result (λ made. IsMade (start_move self.old) made self.new) }
        ensures err { OnErr result (IsBesidesDraws self.old self.new) }
    {
        if self.live.len() >= MOST_LIVE {
            return Ok(None);
        }
        let request = drawn_request(self.alloc, &mut self.draws)?;
        let c = self.last + 1;
        put_in(&mut self.live, c)?;
        self.last = c;
        Ok(Some(Event::Start { c, request }))
    }

    /// One that is live asks for bytes.
    fn poll(&mut self) -> Option<Event>
        ensures { IsMade (poll_of_round self.old) result self.new }
    {
        let c = self.draws.pick(self.live.as_slice())?;
        Some(Event::Poll { c, want: WANT })
    }

    /// One that is wanted gets its head, or its next bytes.
    fn bring(&mut self, wanted: &[u64]) -> Result<Option<Event>, NoMemory>
        ensures ok { IfOk result (λ made. IsMade (answer_move wanted.now self.old) made self.new) }
        ensures err { OnErr result (IsBesidesDraws self.old self.new) }
    {
        let Some(x) = self.draws.pick(wanted) else {
            return Ok(None);
        };
        let Some(exchange) = item_at(self.exchanges.as_slice(), x) else {
            return Ok(None);
        };
        let brought = exchange.owed.bring(self.alloc, x)?;
        owe(&mut self.exchanges, x, brought.at, brought.hi);
        Ok(Some(brought.event))
    }

    /// One that is live leaves.
    fn cancel(&mut self) -> Option<Event>
        ensures { IsMade (cancel_move self.old) result self.new }
    {
        let c = self.draws.pick(self.live.as_slice())?;
        leave_out(&mut self.live, c);
        Some(Event::Cancel { c })
    }

    /// From one to thirty seconds pass.
    fn wait(&mut self)
        requires { self.old.moment + 30 < 2 ^ 62 }
        ensures after { IsMade (wait_move self.old) None self.new }
        ensures grows { self.new.moment ≤ self.old.moment + 30 }
    {
        self.moment += self.draws.below(30) + 1;
    }

    /// One that is wanted breaks.
    fn fault(&mut self, wanted: &[u64]) -> Option<Event>
        ensures { IsMade (fault_move wanted.now self.old) result self.new }
    {
        let x = self.draws.pick(wanted)?;
        leave_out(&mut self.exchanges, x);
        Some(Event::Fault { x })
    }

    /// What is stored for a key is not to be used any more.
    fn doom(&mut self) -> Result<Option<Event>, NoMemory>
        ensures ok { IfOk result (λ made. IsMade (doom_move self.old) made self.new) }
        ensures err { OnErr result (IsBesidesDraws self.old self.new) }
    {
        let key = key_of(self.alloc, self.draws.below(KEYS))?;
        Ok(Some(Event::Doom { key }))
    }
}
