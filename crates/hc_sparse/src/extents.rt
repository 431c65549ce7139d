//! Whose the offsets of a block are, as extents in order, none of which overlap.
ghost use Rattle.std.specs.Prelude.{◌≡◌, ◌↔◌, ◌+◌, ◌≤◌, ◌<◌, ◌^◌, IsTrue, ℕ, length, true, IfSome, IsNone, vec_len, vec_capacity};
ghost use Rattle.hc_sparse.specs.Extents.{marks_of, ascend, place_of, end_of, AreFree, ClaimsExtent, Follows, IsExtentFrom, rest_of};

/// Offsets that are all of one exchange. Their bytes stand one after another from the place `from` on.
#[derive(Clone, Copy, Debug, PartialEq, Eq)]
pub(crate) struct Extent {
    pub(crate) x: u64,
    pub(crate) at: usize,
    pub(crate) len: usize,
    pub(crate) from: usize,
}

/// Whether an extent ends at an offset or before it.
fn ends_by(extent: &Extent, o: usize) -> bool
    ensures { IsTrue result ↔ (end_of extent.now ≤ o) }
{
    extent.at <= o && extent.len <= o - extent.at
}

/// How many extents end at an offset or before it.
fn place_of(extents: &[Extent], o: usize) -> usize
    requires { ascend 0 extents.now ≡ true }
    ensures within { result ≤ length extents.now }
    ensures place { result ≡ place_of o extents.now }
{
    extents.partition_point(|extent| ends_by(extent, o))
}

/// The first extent that ends past an offset.
pub(crate) fn extent_from(extents: &[Extent], o: usize) -> Option<&Extent>
    requires { ascend 0 extents.now ≡ true }
    ensures none { IsNone result → (q : ℕ) → o ≤ q → marks_of extents.now q ≡ None }
    ensures some { IfSome result (λ extent. IsExtentFrom extents.now o extent.now) }
{
    extents.get(place_of(extents, o))
}

/// The extent that has an offset.
pub(crate) fn extent_with(extents: &[Extent], o: usize) -> Option<&Extent>
    requires { ascend 0 extents.now ≡ true }
    ensures none { IsNone result → marks_of extents.now o ≡ None }
    ensures some { IfSome result
        (λ extent. IsExtentFrom extents.now o extent.now × (extent.now.at ≤ o)) }
{
    match extent_from(extents, o) {
        Some(extent) if extent.at <= o => Some(extent),
        _ => None,
    }
}

/// Makes offsets that nobody has an exchange's. There has to be room for one extent more.
pub(crate) fn claim(extents: &mut Vec<Extent>, new: Extent)
    requires ascend { ascend 0 extents.old.items ≡ true }
    requires free { AreFree (marks_of extents.old.items) new.at (end_of new) }
    requires some { 0 < new.len }
    requires within { end_of new ≤ 4096 }
    requires spare { vec_len extents.old < vec_capacity extents.old }
    ensures ascend { ascend 0 extents.new.items ≡ true }
    ensures marks { ClaimsExtent extents.old.items extents.new.items new }
{
    let place = place_of(extents.as_slice(), new.at);
    if place > 0 && is_followed(&extents[place - 1], new) {
        let before = &mut extents[place - 1];
        before.len += new.len;
        return;
    }
    let _ = extents.insert(place, new);
}

/// What an extent has behind its first offsets, which begins at a position.
pub(crate) fn rest_of(extent: Extent, at: usize, skipped: usize) -> Extent
    requires within { skipped ≤ extent.len }
    requires small { extent.from + extent.len < 2 ^ 64 }
    ensures { result ≡ rest_of extent at skipped }
{
    Extent {
        x: extent.x,
        at,
        len: extent.len - skipped,
        from: extent.from + skipped,
    }
}

/// Whether another extent goes on just where this one ends, with bytes of its exchange that stand
/// behind its own.
pub(crate) fn is_followed(extent: &Extent, new: Extent) -> bool
    ensures { IsTrue result ↔ Follows extent.now new }
{
    extent.x == new.x
        && extent.at <= new.at
        && extent.len == new.at - extent.at
        && extent.from <= new.from
        && extent.len == new.from - extent.from
}
