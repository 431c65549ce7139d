//! What the cache says of itself.
ghost use Rattle.std.specs.Prelude.{◌≡◌, ℕ, true, IfSome, IfNone};
ghost use Rattle.hc_model.specs.Entries.{Contents, History};
ghost use Rattle.hc_model.specs.Exchanges.{is_open, is_wanted};
ghost use Rattle.hc_text.specs.Sorted.{is_sorted, is_among, itself};
ghost use Rattle.hc_model.specs.Denials.{live, IsLeastLive};
ghost use Rattle.hc_model.specs.Kinds.{kind_for};
ghost use Rattle.hc_model.specs.Lines.{turn};
ghost use Rattle.hc_model.specs.Tables.{tables};
ghost use Rattle.hc_core.specs.Steps.{StandsFor, last_moment, steps, bytes_received, live_in, store_in};

use crate::cache::Cache;
use hc_record::Kind;
use hc_store::Backend;
use hc_text::Key;

impl<B: Backend> Cache<B> {
    /// The moment of the last step, 0 before the first.
    pub fn last_moment(&self) -> u64
        ensures { result ≡ last_moment self.now }
    {
        self.last_moment
    }

    /// How many steps were made.
    pub fn steps(&self) -> u64
        ensures { result ≡ steps self.now }
    {
        self.steps
    }

    /// How many bytes the pieces had that were handed in.
    pub fn received(&self) -> u64
        ensures { result ≡ bytes_received self.now }
    {
        self.received
    }

    /// How many consumers are live.
    pub fn live(&self) -> usize
        ensures kept { result ≡ live_in self.now }
        ensures live { (contents : Contents) (h : History) → StandsFor self.now contents h
            → result ≡ live (tables contents h) }
    {
        self.rows.consumers.len()
    }

    /// The lowest number of who is live. All of them are looked at.
    pub fn least_live(&self) -> Option<u64>
        ensures none { IfNone result (live_in self.now ≡ 0) }
        ensures least { IfSome result (λ c. (contents : Contents) (h : History)
            → StandsFor self.now contents h → IsLeastLive (tables contents h) c) }
    {
        let mut least = None;
        for c in self.rows.consumers.keys() {
            least = Some(match least {
                Some(other) if other < *c => other,
                _ => *c,
            });
        }
        least
    }

    /// The exchange is open.
    pub fn is_open(&self, x: u64) -> bool
        ensures { (contents : Contents) (h : History) → StandsFor self.now contents h
            → result ≡ is_open ((tables contents h).exchange x) }
    {
        self.rows.exchanges.view(x).is_some()
    }

    /// The exchange waits for its head, or for bytes that were asked for.
    pub fn wants(&self, x: u64) -> bool
        ensures { (contents : Contents) (h : History) → StandsFor self.now contents h
            → result ≡ is_wanted ((tables contents h).exchange x) }
    {
        match self.rows.exchanges.view(x) {
            Some(view) => !view.headed || view.asked,
            None => false,
        }
    }

    /// The exchanges that are wanted, in ascending order of their numbers.
    pub fn wanted(&self) -> &[u64]
        ensures ascending { is_sorted itself result.now ≡ true }
        ensures wanted { (contents : Contents) (h : History) → StandsFor self.now contents h
            → (x : ℕ) → is_among x result.now ≡ is_wanted ((tables contents h).exchange x) }
    {
        self.rows.exchanges.wanted()
    }

    /// Whose turn it is for a key.
    pub fn turn_of(&self, key: &Key) -> Option<u64>
        ensures { (contents : Contents) (h : History) → StandsFor self.now contents h
            → result ≡ turn (tables contents h) key.now }
    {
        self.rows.keys.turn(key)
    }

    /// How much is stored of what is current for a key.
    pub fn kind_of(&self, key: &Key) -> Option<Kind>
        ensures { (contents : Contents) (h : History) → StandsFor self.now contents h
            → result ≡ kind_for (tables contents h) key.now }
    {
        let r = self.rows.keys.current(key)?;
        Some(self.rows.entries.entry(r)?.kind)
    }

    pub fn store(&self) -> &B
        ensures { result.now ≡ store_in self.now }
    {
        self.rows.entries.store()
    }
}
