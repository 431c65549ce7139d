//! For how long a stored head is fresh.
ghost use Rattle.std.specs.Prelude.{◌≡◌, ◌<◌, ◌≤◌, ◌^◌, min, codes};
ghost use Rattle.std.specs.Option.{ForSome};
ghost use Rattle.hc_record.specs.Plain.{plain};
ghost use Rattle.hc_fresh.specs.Ages.{date_in, date_of};
ghost use Rattle.hc_fresh.specs.Lifetimes.{heuristic_lifetime, lifetime, lifetime_by, seconds_until};

use crate::dates::{date_in, date_of};
use hc_cachectl::read_response;
use hc_fields::has_field;
use hc_record::StoredHead;

/// A guessed lifetime is a week at most.
const WEEK: u64 = 604_800;

/// For how many seconds the head is fresh (RFC 9111 section 4.2.1): by this `max-age`, which is its own,
/// else by Expires, else a tenth of the time since its Last-Modified, a week at most (section 4.2.2).
///
/// It is 0 where Expires can't be read or is past, and where nothing tells.
pub(crate) fn lifetime_by(max_age: Option<u64>, head: &StoredHead) -> u64
    requires { ForSome max_age (λ seconds. seconds ≤ 2 ^ 31) }
    ensures value { result ≡ lifetime_by max_age (plain head.now) }
    ensures small { result < 2 ^ 62 }
{
    if let Some(seconds) = max_age {
        return seconds;
    }
    let date = date_of(head);
    if has_field(&head.fields, b"expires") {
        seconds_until(date_in(&head.fields, b"expires"), date)
    } else {
        guessed(date_in(&head.fields, b"last-modified"), date)
    }
}

/// The seconds up to Expires, 0 where it is past or can't be read.
fn seconds_until(expires: Option<u64>, date: u64) -> u64
    requires { ForSome expires (λ second. second < 2 ^ 38) }
    ensures value { result ≡ seconds_until expires date }
    ensures small { result < 2 ^ 62 }
{
    match expires {
        None => 0,
        Some(expires) => expires.saturating_sub(date),
    }
}

/// A tenth of the time from the last change to the date, 0 where that isn't before it.
fn guessed(modified: Option<u64>, date: u64) -> u64
    ensures value { result ≡ heuristic_lifetime modified date }
    ensures small { result < 2 ^ 62 }
{
    match modified {
        Some(modified) if modified <= date => ((date - modified) / 10).min(WEEK),
        _ => 0,
    }
}
