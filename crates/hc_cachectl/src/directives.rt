//! Directives.
ghost use Rattle.std.specs.Prelude.{◌≡◌};
ghost use Rattle.hc_cachectl.specs.Directives.{of_response, of_request, has_pragma, IsCapped};

use crate::found::find;
use hc_fields::{Fields, has_field};

/// What fields ask of a cache. Of a directive that stands more than once the first counts.
#[derive(Clone, Copy, Debug, PartialEq, Eq)]
pub struct Directives {
    /// Seconds, at most 2^31; 0 where they can't be read.
    pub max_age: Option<u64>,
    pub no_store: bool,
    pub no_cache: bool,
    pub must_revalidate: bool,
    pub only_if_cached: bool,
    /// Seconds, at most 2^31, which also stands for those that can't be read.
    pub min_fresh: Option<u64>,
    /// Seconds, at most 2^31, or no bound; None also where they can't be read.
    pub max_stale: Option<Option<u64>>,
}

/// No directive.
const NOTHING: Directives = Directives {
    max_age: None,
    no_store: false,
    no_cache: false,
    must_revalidate: false,
    only_if_cached: false,
    min_fresh: None,
    max_stale: None,
};

/// The directives of a response, over all its Cache-Control fields in order.
///
/// Names are matched in any case, and an argument is a token or a quoted string. An argument of a
/// directive that takes none is left aside, and so is a directive that isn't among these.
pub fn read_response(fields: &Fields) -> Directives
    ensures value { result ≡ of_response fields.now }
    ensures capped { IsCapped result }
{
    if !has_field(fields, b"cache-control") {
        return NOTHING;
    }
    find(fields, b"cache-control").directives()
}

/// The directives of a request, as those of a response; `Pragma: no-cache` counts as `no-cache`
/// (RFC 9111 section 5.4).
pub fn read_request(fields: &Fields) -> Directives
    ensures value { result ≡ of_request fields.now }
    ensures capped { IsCapped result }
{
    let read = read_response(fields);
    Directives {
        no_cache: read.no_cache || has_pragma(fields),
        ..read
    }
}

/// Whether the fields of a request say `Pragma: no-cache`. Few requests have such a field.
fn has_pragma(fields: &Fields) -> bool
    ensures { result ≡ has_pragma fields.now }
{
    has_field(fields, b"pragma") && find(fields, b"pragma").no_cache
}
