//! What is kept of a live consumer.
ghost use Rattle.std.specs.Prelude.{◌≡◌, ◌+◌, ◌<◌, ◌^◌, IfOk};
ghost use Rattle.hc_fresh.specs.Facts.{request_facts};
ghost use Rattle.hc_rules.specs.Requests.{class_of};

use hc_event::{Cause, Place, Request, Response};
use hc_fresh::RequestFacts;
use hc_rules::{RequestClass, class_of};
use hc_text::NoMemory;

/// What is kept of a live consumer. Moments are whole seconds since 1970; positions and counts are of
/// bytes.
#[derive(Drop)]
pub struct Transaction {
    pub request: Request,
    /// What its request asks of the cache.
    pub class: RequestClass,
    /// What it asks of the freshness of an answer.
    pub facts: RequestFacts,
    /// The moment of its start, or of its last starting over.
    pub since: u64,
    pub place: Place,
    /// The exchange that is its own, as long as that is open.
    pub own: Option<u64>,
    /// It was shown a head.
    pub shown: bool,
    /// The head of an answer past the store, until it is shown.
    pub answer: Option<Response>,
    /// Where what it reads begins.
    pub lo: u64,
    /// Where that ends, if it is known.
    pub hi: Option<u64>,
    /// How many bytes it was given.
    pub given: u64,
    /// The failure that is due.
    pub due: Option<Cause>,
    ghost classed: { class ≡ class_of request },
    ghost reported: { facts ≡ request_facts request },
}

impl Transaction {
    ghost use Rattle.hc_txn.specs.Transactions.{begun, queues, has_passed, kept_by};

    /// It stands in line, or reads nothing yet.
    pub fn new(request: &Request, now: u64) -> Result<Transaction, NoMemory>
        ensures { IfOk result (λ made. made ≡ begun request.now now) }
    {
        Ok(Transaction {
            request: request.copy()?,
            class: class_of(request),
            facts: RequestFacts::of(request),
            since: now,
            place: Place::Line,
            own: None,
            shown: false,
            answer: None,
            lo: 0,
            hi: None,
            given: 0,
            due: None,
        })
    }

    /// Whether it waits in the line of its key with others: it neither goes past the store nor is
    /// for what is stored alone.
    pub fn queues(&self) -> bool
        ensures { result ≡ queues self.now }
    {
        !self.class.disabled && !self.class.only
    }

    /// Whether it waits for the body of what is current.
    pub fn has_passed(&self) -> bool
        ensures { result ≡ has_passed self.now.place }
    {
        matches!(self.place, Place::Passed { .. })
    }

    /// The exchange by whose 304 it may read, if it has one.
    pub fn kept(&self) -> Option<u64>
        ensures { result ≡ kept_by self.now.place }
    {
        match self.place {
            Place::Passed { kept, .. } => kept,
            _ => None,
        }
    }

    /// Where it stands in what it reads.
    pub fn offset(&self) -> u64
        requires { self.now.lo + self.now.given < 2 ^ 63 }
        ensures { result ≡ self.now.lo + self.now.given }
    {
        self.lo + self.given
    }
}
