//! What an answer needs of a head and of a request, told once and kept.
ghost use Rattle.std.specs.Prelude.{◌≡◌, ◌≤◌, ◌<◌, ◌^◌};
ghost use Rattle.hc_cachectl.specs.Directives.{IsCapped};
ghost use Rattle.hc_record.specs.Plain.{plain};

use crate::ages::corrected_initial_age;
use crate::lifetimes::lifetime_by;
use hc_cachectl::{Directives, read_request, read_response};
use hc_event::{Load, Request};
use hc_record::StoredHead;

/// What a stored head says of its freshness. Moments and lengths of time are seconds.
#[derive(Clone, Copy, Debug, PartialEq, Eq)]
pub struct HeadFacts {
    /// When it came.
    pub answered: u64,
    /// How old it was then.
    pub initial_age: u64,
    /// For how long it is fresh.
    pub lifetime: u64,
    pub no_cache: bool,
    pub must_revalidate: bool,
}

/// What a request asks of the freshness of an answer.
#[derive(Clone, Copy, Debug, PartialEq, Eq)]
pub struct RequestFacts {
    pub load: Load,
    pub directives: Directives,
}

impl HeadFacts {
    ghost use Rattle.hc_fresh.specs.Facts.{head_facts};

    /// What the head says.
    #[tactic(auto, unfolding(crate::specs::Lifetimes::lifetime))]
    pub fn of(head: &StoredHead) -> HeadFacts
        requires { head.now.requested ≤ head.now.answered }
        ensures value { result ≡ head_facts (plain head.now) }
        ensures small { result.initial_age < 2 ^ 63 }
        ensures small_lifetime { result.lifetime < 2 ^ 62 }
    {
        let said = read_response(&head.fields);
        HeadFacts {
            answered: head.answered,
            initial_age: corrected_initial_age(head),
            lifetime: lifetime_by(said.max_age, head),
            no_cache: said.no_cache,
            must_revalidate: said.must_revalidate,
        }
    }
}

impl RequestFacts {
    ghost use Rattle.hc_fresh.specs.Facts.{request_facts};

    /// What the request asks.
    pub fn of(request: &Request) -> RequestFacts
        ensures value { result ≡ request_facts request.now }
        ensures capped { IsCapped result.directives }
    {
        RequestFacts {
            load: request.load,
            directives: read_request(&request.fields),
        }
    }
}
