//! Whether a stored head may be used without validation.
ghost use Rattle.std.specs.Prelude.{◌≡◌, ◌≤◌, ◌<◌, ◌^◌, ◌+◌, IfSome};
ghost use Rattle.hc_cachectl.specs.Directives.{IsCapped};
ghost use Rattle.hc_record.specs.Head.{Head};
ghost use Rattle.hc_record.specs.Plain.{plain};
ghost use Rattle.hc_fresh.specs.Facts.{allowed, allowed_to, head_facts, request_facts};
ghost use Rattle.hc_cachectl.specs.Seconds.{most_seconds};
ghost use Rattle.hc_event.specs.declared.event.Request.{Request as Asked};
ghost use Rattle.hc_fresh.specs.Allowed.{accepts, is_older, lacks};

use crate::facts::{HeadFacts, RequestFacts};
use hc_event::{Load, Request, Why};
use hc_record::StoredHead;

/// Why a stored head may be used for a request at the moment `now`, without validation, by what they
/// say of it; None where it may not (RFC 9111 sections 4 and 5.2).
pub fn allowed_to(head: &HeadFacts, request: &RequestFacts, now: u64) -> Option<Why>
    requires later { head.now.answered ≤ now }
    requires small { now < 2 ^ 62 }
    requires small_age { head.now.initial_age < 2 ^ 63 }
    requires capped { IsCapped request.now.directives }
    ensures value { result ≡ allowed_to head.now request.now now }

    // It is what the head and the request themselves allow.
    ensures alike { (plain : Head) (asked : Asked) → head.now ≡ head_facts plain
        → request.now ≡ request_facts asked → result ≡ allowed plain asked now }
{
    let age = head.initial_age + (now - head.answered);
    let asked = &request.directives;
    if request.load == Load::Validate || asked.max_age == Some(0) {
        return None;
    }
    if head.no_cache || is_older(age, asked.max_age) || lacks(head.lifetime, age, asked.min_fresh) {
        return None;
    }
    if age < head.lifetime {
        return Some(Why::Fresh {
            age,
            lifetime: head.lifetime,
        });
    }
    let skips = request.load == Load::Skip;
    if !head.must_revalidate && (skips || accepts(asked.max_stale, age - head.lifetime)) {
        return Some(Why::StaleAllowed {
            age,
            lifetime: head.lifetime,
        });
    }
    None
}

/// Whether the age is above what is asked for.
fn is_older(age: u64, most: Option<u64>) -> bool
    ensures { result ≡ is_older age most }
{
    most.is_some_and(|most| most < age)
}

/// Whether the head isn't fresh for as many further seconds as are asked for.
fn lacks(lifetime: u64, age: u64, least: Option<u64>) -> bool
    requires small { age < 2 ^ 63 + 2 ^ 62 }
    requires capped { IfSome least (λ n. n ≤ most_seconds) }
    ensures { result ≡ lacks lifetime age least }
{
    least.is_some_and(|least| lifetime < age + least)
}

/// Whether the request accepts an answer that is stale by so much.
fn accepts(most: Option<Option<u64>>, excess: u64) -> bool
    ensures { result ≡ accepts most excess }
{
    match most {
        None => false,
        Some(None) => true,
        Some(Some(most)) => excess <= most,
    }
}
