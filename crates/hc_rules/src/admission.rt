//! How a consumer may be bound to a representation beside those that are.
ghost use Rattle.std.specs.Prelude.{◌≡◌};
ghost use Rattle.hc_rules.specs.Admissions.{admission_of, least_of, least_bound, is_of, numbers};

use crate::least::lesser;

/// How a consumer is bound to a representation.
#[derive(Clone, Copy, Debug, PartialEq, Eq)]
pub enum BoundKind {
    /// A member of its writer group.
    Shared,
    /// Its exclusive writer.
    Exclusive,
    /// It reads what is stored.
    Reader,
}

/// A consumer that is bound to a representation.
#[derive(Clone, Copy)]
pub struct Bound {
    pub c: u64,
    pub kind: BoundKind,
}

/// How one more consumer may be bound.
#[derive(Clone, Copy, Debug, PartialEq, Eq)]
pub enum Admission {
    /// As a member of the writer group.
    Shared,
    /// As a reader of what is stored.
    Reader,
    /// As the exclusive writer.
    Exclusive,
    /// Not at all, while this consumer is bound as it is.
    Behind(u64),
}

/// How one more consumer may be bound beside these, where it wants a range or not, and where what it
/// wants has holes or not.
#[tactic(auto, unfolding(crate::specs::Admissions::admission_of))]
pub fn admission_of(bound: &[Bound], ranged: bool, holes: bool) -> Admission
    ensures { result ≡ admission_of bound.now ranged holes }
{
    if let Some(d) = least_of(bound, BoundKind::Shared) {
        return if ranged {
            Admission::Behind(d)
        } else {
            Admission::Shared
        };
    }
    if let Some(d) = least_of(bound, BoundKind::Exclusive) {
        return Admission::Behind(d);
    }
    if !holes {
        return Admission::Reader;
    }
    match least_bound(bound) {
        Some(d) => Admission::Behind(d),
        None => Admission::Exclusive,
    }
}

/// The least consumer that is bound in this way.
pub fn least_of(bound: &[Bound], kind: BoundKind) -> Option<u64>
    ensures { result ≡ least_of kind bound.now }
{
    let mut least = None;
    for b in bound {
        if is_of(*b, kind) {
            least = lesser(least, b.c);
        }
    }
    least
}

/// Whether it is bound in this way.
fn is_of(bound: Bound, kind: BoundKind) -> bool
    ensures { result ≡ is_of kind bound }
{
    match kind {
        BoundKind::Shared => matches!(bound.kind, BoundKind::Shared),
        BoundKind::Exclusive => matches!(bound.kind, BoundKind::Exclusive),
        BoundKind::Reader => matches!(bound.kind, BoundKind::Reader),
    }
}

/// The least consumer that is bound.
pub fn least_bound(bound: &[Bound]) -> Option<u64>
    ensures { result ≡ least_bound bound.now }
{
    let mut least = None;
    for b in bound {
        least = lesser(least, b.c);
    }
    least
}
