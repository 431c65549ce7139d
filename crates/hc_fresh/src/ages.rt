//! How old a stored head is.
ghost use Rattle.std.specs.Prelude.{◌≡◌, ◌≤◌, ◌<◌, ◌^◌, codes};
ghost use Rattle.hc_cachectl.specs.Seconds.{most_seconds};
ghost use Rattle.hc_record.specs.Plain.{plain};
ghost use Rattle.hc_fresh.specs.Ages.{age, age_value, corrected_initial_age};

use crate::dates::date_of;
use hc_cachectl::read_delta_seconds;
use hc_fields::Fields;
use hc_record::StoredHead;

/// How many seconds old the head was when it came.
#[tactic(auto, unfolding(crate::specs::Ages::corrected_initial_age))]
pub(crate) fn corrected_initial_age(head: &StoredHead) -> u64
    requires { head.now.requested ≤ head.now.answered }
    ensures value { result ≡ corrected_initial_age (plain head.now) }
    ensures small { result < 2 ^ 63 }
{
    let apparent = head.answered.saturating_sub(date_of(head));
    let corrected = age_value(&head.fields) + (head.answered - head.requested);
    apparent.max(corrected)
}

/// What Age says, 0 where its first value isn't digits alone.
fn age_value(fields: &Fields) -> u64
    ensures value { result ≡ age_value fields.now }
    ensures small { result ≤ most_seconds }
{
    match fields.get(b"age") {
        Some(digits) => read_delta_seconds(digits).unwrap_or(0),
        None => 0,
    }
}
