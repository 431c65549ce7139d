//! Methods that only read.
ghost use Rattle.std.specs.Prelude.{◌≡◌};
ghost use Rattle.http.specs.Method.{is_among, safe_methods as methods_of_http};
ghost use Rattle.hc_event.specs.Safe.{safe_methods};

use hc_text::MethodName;
use http::Method;

/// A method of more bytes is none of the safe ones.
const LONGEST: usize = 15;

/// Whether the method is one of GET, HEAD, OPTIONS and TRACE (RFC 9110 section 9.2.1), in this case
/// of letters. QUERY, which `http` counts too, isn't one here.
pub fn is_safe(method: &MethodName) -> bool
    ensures { result ≡ is_among safe_methods method.now }
{
    is_safe_by_http(method) && method.bytes.as_slice() != b"QUERY".as_slice()
}

/// Whether `http` says that the method only reads.
fn is_safe_by_http(method: &MethodName) -> bool
    ensures { result ≡ is_among methods_of_http method.now }
{
    if method.bytes.len() > LONGEST {
        return false;
    }
    match Method::from_bytes(*method.bytes.allocator(), method.bytes.as_slice()) {
        Ok(name) => name.is_safe(),
        Err(_) => false,
    }
}
