//! Why a field is refused.
ghost use Rattle.hc_fields.specs.declared.error.FieldError.TheVariants.{NoMemory as no_memory};
ghost use Rattle.std.specs.Prelude.{◌≡◌};

use hc_text::NoMemory;
use std::error::Error;
use std::fmt;

/// Why a field is refused, in the order in which the reasons are tested.
#[derive(Clone, Copy, Debug, PartialEq, Eq)]
pub enum FieldError {
    /// The name is no token (RFC 9110 section 5.6.2).
    BadName,
    /// The value has a control byte other than the tab, or a space or a tab at an end (RFC 9110
    /// section 5.5).
    BadValue,
    /// It would be the 81st field.
    TooMany,
    /// The value has more than 8,192 bytes, or all names and values would have more than 49,152.
    TooLong,
    /// There was not enough memory, and no other reason applies.
    NoMemory,
}

impl From<NoMemory> for FieldError {
    ghost from_gives = { λ _ e. e ≡ no_memory };

    fn from(_: NoMemory) -> Self {
        FieldError::NoMemory
    }
}

impl fmt::Display for FieldError {
    fn fmt<W: fmt::Write>(&self, f: &mut fmt::Formatter<W>) -> fmt::Result {
        match self {
            FieldError::BadName => write!(f, "the name is no token"),
            FieldError::BadValue => write!(f, "the value has a byte that no value has there"),
            FieldError::TooMany => write!(f, "there are 80 fields already"),
            FieldError::TooLong => write!(f, "the value or all fields together are too long"),
            FieldError::NoMemory => write!(f, "not enough memory"),
        }
    }
}

impl Error for FieldError {}
