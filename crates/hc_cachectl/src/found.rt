//! What the elements of fields say.
ghost use Rattle.std.specs.Prelude.{◌≡◌};
ghost use Rattle.std.specs.Option.{option_map, option_and_then};
ghost use Rattle.http_header.specs.Token.{lowercase};
ghost use Rattle.hc_text.specs.Elements.{elements};
ghost use Rattle.hc_fields.specs.FirstValues.{elements_in};
ghost use Rattle.hc_cachectl.specs.Found.{with_element, with_elements, nothing_found, seconds_or, staleness_of, said_by};

use crate::directives::Directives;
use crate::element::{Argument, Directive};
use crate::seconds::MOST;
use hc_fields::Fields;
use hc_text::next_item;

/// The arguments and directives of the elements so far.
#[derive(Clone, Copy)]
pub(crate) struct Found {
    max_age: Option<Argument>,
    min_fresh: Option<Argument>,
    max_stale: Option<Argument>,
    no_store: bool,
    pub(crate) no_cache: bool,
    must_revalidate: bool,
    only_if_cached: bool,
}

/// What the elements of all fields of a name say, in order.
pub(crate) fn find(fields: &Fields, name: &[u8]) -> Found
    ensures { result ≡ with_elements nothing_found (elements_in (lowercase name.now) fields.now) }
{
    let mut found = Found {
        max_age: None,
        min_fresh: None,
        max_stale: None,
        no_store: false,
        no_cache: false,
        must_revalidate: false,
        only_if_cached: false,
    };
    for i in 0..fields.count(name) {
        found.take_list(fields.value(name, i).unwrap());
    }
    found
}

impl Found {
    /// Takes each element of a list.
    fn take_list(&mut self, text: &[u8])
        ensures { self.new ≡ with_elements self.old (elements text.now) }
    {
        let mut from = 0;
        while let Some(item) = next_item(text, from) {
            self.take_element(&text[item.start..item.end]);
            from = item.next;
        }
    }

    /// Takes one element. Of a directive that stands more than once the first counts.
    fn take_element(&mut self, element: &[u8])
        ensures { self.new ≡ with_element self.old element.now }
    {
        let directive = Directive::read(element);
        self.max_age = self.max_age.or(directive.argument_to(b"max-age"));
        self.min_fresh = self.min_fresh.or(directive.argument_to(b"min-fresh"));
        self.max_stale = self.max_stale.or(directive.argument_to(b"max-stale"));
        self.no_store |= directive.is(b"no-store");
        self.no_cache |= directive.is(b"no-cache");
        self.must_revalidate |= directive.is(b"must-revalidate");
        self.only_if_cached |= directive.is(b"only-if-cached");
    }

    /// The directives that the elements say.
    pub(crate) fn directives(&self) -> Directives
        ensures { result ≡ said_by self.now }
    {
        Directives {
            max_age: seconds_or(self.max_age, 0),
            no_store: self.no_store,
            no_cache: self.no_cache,
            must_revalidate: self.must_revalidate,
            only_if_cached: self.only_if_cached,
            min_fresh: seconds_or(self.min_fresh, MOST),
            max_stale: staleness(self.max_stale),
        }
    }
}

/// The seconds of an argument, or these where it tells none.
fn seconds_or(argument: Option<Argument>, other: u64) -> Option<u64>
    ensures { result ≡ option_map (seconds_or other) argument }
{
    match argument? {
        Argument::Seconds(n) => Some(n),
        Argument::Absent | Argument::Unreadable => Some(other),
    }
}

/// The seconds of an argument; no bound where there is no argument, and none where it can't be read.
fn staleness(argument: Option<Argument>) -> Option<Option<u64>>
    ensures { result ≡ option_and_then staleness_of argument }
{
    match argument? {
        Argument::Seconds(n) => Some(Some(n)),
        Argument::Absent => Some(None),
        Argument::Unreadable => None,
    }
}
