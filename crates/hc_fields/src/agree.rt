//! Whether two lists say the same under a name, without joining their values.
ghost use Rattle.std.specs.Prelude.{◌≡◌, ◌↔◌, [], length, IfSome, IsTrue};
ghost use Rattle.std.specs.Option.{option_map};
ghost use Rattle.http_header.specs.Token.{lowercase};
ghost use Rattle.hc_fields.specs.FieldList.{joined_of, values_of};
ghost use Rattle.hc_fields.specs.Agreement.{agree_on};
ghost use Rattle.hc_fields.specs.Joined.{all_values, bytes_left};

use crate::fields::Fields;

/// Whether the name is absent in both lists, or has values in both that are equal once they are joined
/// by a comma and a space (RFC 9110 section 5.3). No memory is taken.
pub fn agree_on(a: &Fields, b: &Fields, name: &[u8]) -> bool
    ensures { result ≡ agree_on (lowercase name.now) a.now b.now }
{
    match (Joined::begin(a, name), Joined::begin(b, name)) {
        (None, None) => true,
        (Some(a), Some(b)) => are_same(a, b),
        _ => false,
    }
}

/// What is left to be read of the joined values of a name.
#[derive(Clone, Copy)]
struct Joined<'a> {
    fields: &'a Fields,
    name: &'a [u8],
    /// How many values there are.
    count: usize,
    /// What is left of the piece that was begun, a value or what separates two.
    rest: &'a [u8],
    /// The value behind that, where the piece separates two.
    value: Option<&'a [u8]>,
    /// The place of the next value behind these.
    next: usize,
}

impl<'a> Joined<'a> {
    ghost use Rattle.hc_fields.specs.Joined.{bytes_left, all_values};

    /// All joined values, if there is one.
    fn begin(fields: &'a Fields, name: &'a [u8]) -> Option<Joined<'a>>
        ensures whole { option_map bytes_left result
            ≡ joined_of (values_of (lowercase name.now) fields.now) }
        ensures count { IfSome result (λ j. j.count ≡ length (all_values j)) }
    {
        Some(Joined {
            fields,
            name,
            count: fields.count(name),
            rest: fields.get(name)?,
            value: None,
            next: 1,
        })
    }

    /// Goes on to the next piece until something is left of it, or all is read.
    fn advance(&mut self)
        requires { self.old.count ≡ length (all_values self.old) }
        ensures left { bytes_left self.new ≡ bytes_left self.old }
        ensures count { self.new.count ≡ length (all_values self.new) }
        ensures at_end { self.new.rest.now ≡ [] → bytes_left self.new ≡ [] }
    {
        while self.rest.is_empty() {
            if let Some(value) = self.value {
                self.rest = value;
                self.value = None;
            } else if self.next < self.count {
                self.rest = b", ";
                self.value = self.fields.value(self.name, self.next);
                self.next += 1;
            } else {
                return;
            }
        }
    }
}

/// Whether the same bytes are left of both.
fn are_same(a: Joined<'_>, b: Joined<'_>) -> bool
    requires a_count { a.count ≡ length (all_values a) }
    requires b_count { b.count ≡ length (all_values b) }
    ensures { IsTrue result ↔ (bytes_left a.entry ≡ bytes_left b.entry) }
{
    let mut a = a;
    let mut b = b;
    loop {
        a.advance();
        b.advance();
        let count = a.rest.len().min(b.rest.len());
        if count == 0 {
            return a.rest.is_empty() && b.rest.is_empty();
        }
        let (a_front, a_rest) = a.rest.split_at(count);
        let (b_front, b_rest) = b.rest.split_at(count);
        if a_front != b_front {
            return false;
        }
        a.rest = a_rest;
        b.rest = b_rest;
    }
}
