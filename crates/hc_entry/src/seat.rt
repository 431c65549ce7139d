//! The seat of a consumer in a line.
ghost use Rattle.std.specs.Prelude.{◌≡◌};
ghost use Rattle.hc_entry.specs.Seats.{called_at, is_same_stand};
ghost use Rattle.hc_entry.specs.declared.seat.Stand.TheVariants as stand;

/// Where a consumer of a line stands.
#[derive(Clone, Copy, Debug, PartialEq, Eq)]
pub enum Stand {
    /// In line for the turn.
    InLine,
    /// It had the turn, and waits for the representation.
    Passed,
    /// It is neither in line nor passed, and keeps its seat.
    Away,
}

impl Stand {
    /// The consumer that stands there, if that is in line.
    pub(crate) fn calls(self, c: u64) -> Option<u64>
        ensures { result ≡ called_at self c }
    {
        match self {
            Stand::InLine => Some(c),
            Stand::Passed | Stand::Away => None,
        }
    }

    /// Whether a consumer that stands there has passed.
    pub(crate) fn is_passed(self) -> bool
        ensures { result ≡ is_same_stand self stand.Passed }
    {
        matches!(self, Stand::Passed)
    }
}

/// What a line keeps of a consumer.
#[derive(Clone, Copy, Debug, PartialEq, Eq)]
pub(crate) struct Seated {
    /// Its place, which stays.
    pub(crate) place: usize,
    pub(crate) stand: Stand,
}
