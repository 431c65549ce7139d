//! Entity tags as values.
ghost use Rattle.std.specs.Prelude.{◌≡◌, ◌↔◌, IfOk, IsTrue};
ghost use Rattle.hc_etag.specs.Etags.{AreStronglyEqual, IsOpaque};

use hc_text::{Bytes, NoMemory};

/// An entity tag: `opaque` are the bytes between its quotes, visible ones other than the quote, or
/// ones past ASCII.
#[derive(Debug, Drop)]
pub struct Tag {
    pub weak: bool,
    pub opaque: Bytes,
    pub ghost etagc: { IsOpaque opaque },
}

impl Tag {
    /// An equal value of its own.
    pub fn copy(&self) -> Result<Tag, NoMemory>
        ensures { IfOk result (λ copy. copy ≡ self.now) }
    {
        Ok(Tag {
            weak: self.weak,
            opaque: self.opaque.copy()?,
        })
    }
}

/// The strong comparison (RFC 9110 section 8.8.3.2): neither tag is weak, and their bytes are equal.
pub fn strong_equal(a: &Tag, b: &Tag) -> bool
    ensures { IsTrue result ↔ AreStronglyEqual a.now.weak a.now.opaque b.now.weak b.now.opaque }
{
    !a.weak && !b.weak && weak_equal(a, b)
}

/// The weak comparison (RFC 9110 section 8.8.3.2): the tags' bytes are equal.
pub fn weak_equal(a: &Tag, b: &Tag) -> bool
    ensures { IsTrue result ↔ (a.now.opaque ≡ b.now.opaque) }
{
    a.opaque.as_slice() == b.opaque.as_slice()
}
