//! Elements of the list, each a directive.
ghost use Rattle.std.specs.Prelude.{◌≡◌, bytes_eq, position, if◌then◌else◌, Some, None};
ghost use Rattle.http_header.specs.Token.{lowercase};
ghost use Rattle.hc_cachectl.specs.Directives.{name_of, is_equals};
ghost use Rattle.hc_cachectl.specs.Seconds.{seconds_of};
ghost use Rattle.hc_cachectl.specs.Found.{argument_in, present};

use crate::seconds::read_seconds;

/// What stands behind the first `=` of a directive.
#[derive(Clone, Copy)]
pub(crate) enum Argument {
    Absent,
    Unreadable,
    Seconds(u64),
}

/// A directive that may be any.
#[derive(Clone, Copy)]
pub(crate) struct Directive<'a> {
    name: &'a [u8],
    argument: Argument,
}

impl<'a> Directive<'a> {
    /// The directive that an element is.
    pub(crate) fn read(element: &'a [u8]) -> Directive<'a>
        ensures name { result.name.now ≡ name_of element.now }
        ensures argument { result.argument ≡ argument_in element.now }
    {
        match equals_sign(element) {
            None => Directive {
                name: element,
                argument: Argument::Absent,
            },
            Some(at) => Directive {
                name: &element[..at],
                argument: Argument::read(&element[at + 1..]),
            },
        }
    }

    /// Whether it has this name, in any case.
    pub(crate) fn is(&self, name: &[u8]) -> bool
        ensures { result ≡ bytes_eq (lowercase self.now.name.now) (lowercase name.now) }
    {
        self.name.eq_ignore_ascii_case(name)
    }

    /// Its argument, where it has this name.
    pub(crate) fn argument_to(&self, name: &[u8]) -> Option<Argument>
        ensures { result ≡ (if bytes_eq (lowercase self.now.name.now) (lowercase name.now)
            then Some self.now.argument else None) }
    {
        if self.is(name) {
            Some(self.argument)
        } else {
            None
        }
    }
}

/// Where the first `=` stands.
fn equals_sign(element: &[u8]) -> Option<usize>
    ensures { result ≡ position is_equals element.now }
{
    element.iter().position(|&b| b == b'=')
}

impl Argument {
    /// The argument that a text is.
    fn read(text: &[u8]) -> Argument
        ensures { result ≡ present (seconds_of text.now) }
    {
        match read_seconds(text) {
            None => Argument::Unreadable,
            Some(n) => Argument::Seconds(n),
        }
    }
}
