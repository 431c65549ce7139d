//! Calls of freshness.
ghost use Rattle.std.specs.Prelude.{◌≡◌, ◌≤◌, ◌<◌};

use crate::error::{BenchError, expect};
use crate::rules::two_heads::TwoHeads;
use crate::rules::validation::bare_request;
use hc_cachectl::Directives;
use hc_event::{Load, Request, Why};
use hc_fresh::{HeadFacts, RequestFacts, allowed_to};
use std::alloc::Global;

/// For how many seconds the heads are fresh.
const LIFETIME: u64 = 3600;

/// What is kept of a head.
pub(super) fn keep_facts(heads: &TwoHeads, times: u64) -> Result<(), BenchError> {
    for round in 0..times {
        let head = heads.at(round);
        if head.requested > head.answered || HeadFacts::of(head).lifetime != LIFETIME {
            return Err(BenchError::Wrong);
        }
    }
    Ok(())
}

/// `allowed_to` of a stored head and a request without fields, at the moment at which the head came.
pub(super) fn allow(alloc: Global, heads: &TwoHeads, times: u64) -> Result<(), BenchError> {
    let request = bare_request(alloc)?;
    allow_often(heads, &request, times)
}

fn allow_often(heads: &TwoHeads, request: &Request, times: u64) -> Result<(), BenchError> {
    for round in 0..times {
        let head = heads.at(round);
        if head.requested > head.answered {
            return Err(BenchError::Wrong);
        }
        let facts = HeadFacts::of(head);
        let why = allowed_to(&facts, &RequestFacts::of(request), head.answered);
        expect(is_fresh_or_none(why))?;
    }
    Ok(())
}

/// Whether it is allowed while it is fresh, if at all: the heads must be validated once they are stale.
fn is_fresh_or_none(why: Option<Why>) -> bool {
    match why {
        Some(Why::Fresh { lifetime, .. }) => lifetime == LIFETIME,
        Some(_) => false,
        None => true,
    }
}

/// `allowed_to` of a head by what is kept of it, while it is fresh and after.
pub(super) fn allow_by_facts(times: u64) -> Result<(), BenchError> {
    for round in 0..times {
        let why = allowed_to(&facts_of(round), &REQUEST, now_of(round));
        expect(is_fresh_or_none(why))?;
    }
    Ok(())
}

/// What is kept of a head that came at second 1,000, with another age by turns.
#[inline(never)]
fn facts_of(round: u64) -> HeadFacts
    ensures came { result.answered ≡ 1000 }
    ensures age { result.initial_age < 2 }
{
    HeadFacts {
        answered: 1000,
        initial_age: round % 2,
        lifetime: LIFETIME,
        no_cache: false,
        must_revalidate: true,
    }
}

/// A moment from then on.
#[inline(never)]
fn now_of(round: u64) -> u64
    ensures came { 1000 ≤ result }
    ensures small { result < 10000 }
{
    1000 + round % 7200
}

/// What is kept of a request that asks for nothing.
const REQUEST: RequestFacts = RequestFacts {
    load: Load::Normal,
    directives: Directives {
        max_age: None,
        no_store: false,
        no_cache: false,
        must_revalidate: false,
        only_if_cached: false,
        min_fresh: None,
        max_stale: None,
    },
};
