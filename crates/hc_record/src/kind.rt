//! How much of a representation is stored.
ghost use Rattle.std.specs.Prelude.{◌≡◌, ◌≢◌, MatchOption};
ghost use Rattle.hc_record.specs.Lines.{kind_byte};

/// How much of a representation is stored.
#[derive(Clone, Copy, Debug, PartialEq, Eq)]
pub enum Kind {
    /// An exchange still brings bytes.
    Growing,
    /// All of it.
    Whole,
    /// Its beginning.
    Truncated,
    /// Some ranges of it.
    Ranges,
}

impl Kind {
    /// The byte of this kind in a record.
    pub(crate) fn byte(self) -> u8
        ensures { result ≡ kind_byte self }
    {
        match self {
            Kind::Growing => b'G',
            Kind::Whole => b'W',
            Kind::Truncated => b'T',
            Kind::Ranges => b'R',
        }
    }

    /// The kind of this byte.
    pub(crate) fn from_byte(byte: u8) -> Option<Kind>
        ensures { MatchOption result ((kind : Kind) → kind_byte kind ≢ byte)
            (λ kind. kind_byte kind ≡ byte) }
    {
        match byte {
            b'G' => Some(Kind::Growing),
            b'W' => Some(Kind::Whole),
            b'T' => Some(Kind::Truncated),
            b'R' => Some(Kind::Ranges),
            _ => None,
        }
    }
}
