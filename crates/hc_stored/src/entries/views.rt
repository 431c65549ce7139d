//! What is told of representations.
ghost use Rattle.std.specs.Prelude.{◌≡◌, true, false, map, option_map, IfSome};
ghost use Rattle.std.specs.Option.{option_copied};
ghost use Rattle.hc_rules.specs.Admissions.{admission_of};
ghost use Rattle.hc_entry.specs.Used.{bound_as};
ghost use Rattle.hc_record.specs.Head.{opaque_of};
ghost use Rattle.hc_stored.specs.Views.{view_of, key_in, facts_in, tag_in, bound_in};

use super::Entries;
use crate::view::EntryView;
use hc_etag::Tag;
use hc_fresh::HeadFacts;
use hc_rules::{Admission, BoundKind, SLOT_WEIGHT};
use hc_store::Backend;
use hc_text::Key;

impl<B: Backend> Entries<B> {
    ghost use Rattle.hc_stored.specs.Entries.{shelf_of};
    ghost use Rattle.hc_stored.specs.Shelf.{is_kept};

    /// What is told of the representation. None exactly where it isn't kept.
    // Callers mostly want one field or two of it, so that the rest needn't be read where it is inlined.
    #[inline(always)]
    pub fn entry(&self, r: u64) -> Option<EntryView>
        ensures { result ≡ option_map view_of ((shelf_of self.now).kept r) }
    {
        let entry = self.rows.get(&r)?;
        let size = self.store.used_by(entry.slot) - SLOT_WEIGHT;
        Some(entry.view(size))
    }

    /// Its key.
    pub fn key(&self, r: u64) -> Option<&Key>
        ensures { option_copied result ≡ option_map key_in ((shelf_of self.now).kept r) }
    {
        Some(&self.rows.get(&r)?.key)
    }

    /// What its head says of its freshness.
    pub fn facts(&self, r: u64) -> Option<&HeadFacts>
        ensures { option_copied result ≡ option_map facts_in ((shelf_of self.now).kept r) }
    {
        Some(&self.rows.get(&r)?.summary.facts)
    }

    /// The tag by which other parts join it, where it has one. It is strong.
    pub fn tag(&self, r: u64) -> Option<&Tag>
        ensures value { opaque_of (option_copied result) ≡ tag_in ((shelf_of self.now).kept r) }
        ensures strong { IfSome (option_copied result) (λ tag. tag.weak ≡ false) }
    {
        self.rows.get(&r)?.summary.tag.as_ref()
    }

    /// The consumers that are bound to it, by number. Nobody where it isn't kept.
    pub fn bound(&self, r: u64) -> &[u64]
        ensures { result.now ≡ bound_in ((shelf_of self.now).kept r) }
    {
        match self.rows.get(&r) {
            Some(entry) => entry.users.bound(),
            None => &[],
        }
    }
    /// How one more consumer may be bound to it, where all are bound so that are.
    pub fn admission(&self, r: u64, kind: BoundKind, ranged: bool, holes: bool) -> Admission
        requires { is_kept (shelf_of self.now) r ≡ true }
        ensures { result ≡ admission_of
            (map (bound_as kind) (bound_in ((shelf_of self.now).kept r))) ranged holes }
    {
        let entry = self.rows.get(&r).unwrap();
        entry.users.admission(kind, ranged, holes)
    }
}
