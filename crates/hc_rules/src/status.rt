//! The statuses of answers that may be stored.
ghost use Rattle.std.specs.Prelude.{◌≡◌};
ghost use Rattle.hc_rules.specs.Statuses.{brings_whole, brings_part};

/// Whether an answer of this status brings a whole body, which may be stored: a 200 (RFC 9110
/// section 15.3.1, RFC 9111 section 3).
#[tactic(auto, unfolding(crate::specs::Statuses::brings_whole))]
pub fn brings_whole(status: u16) -> bool
    ensures { result ≡ brings_whole status }
{
    status == 200
}

/// Whether it brings a part of a body, which may be stored: a 206 (RFC 9110 section 15.3.7,
/// RFC 9111 sections 3.3 and 3.4).
#[tactic(auto, unfolding(crate::specs::Statuses::brings_part))]
pub fn brings_part(status: u16) -> bool
    ensures { result ≡ brings_part status }
{
    status == 206
}
