//! Why an act is done, in numbers.
ghost use Rattle.std.specs.Prelude.{◌≡◌};
ghost use Rattle.hc_binary.specs.Details.{plain, of_exchange, of_representation, of_numbers, need_detail, why_detail, cause_detail, wait_detail, lost_detail, refusal_detail};

use hc_event::{Cause, LostKind, Need, Refusal, Wait, Why};

/// A reason: its number, and what goes with it.
#[derive(Clone, Copy, Debug, PartialEq, Eq)]
pub(crate) struct Detail {
    pub(crate) code: u32,
    pub(crate) exchange: u64,
    pub(crate) representation: u64,
    pub(crate) first: u64,
    pub(crate) second: u64,
}

/// A reason with which nothing goes.
fn plain(code: u32) -> Detail
    ensures { result ≡ plain code }
{
    Detail {
        code,
        exchange: 0,
        representation: 0,
        first: 0,
        second: 0,
    }
}

/// A reason with which an exchange goes.
fn of_exchange(code: u32, x: u64) -> Detail
    ensures { result ≡ of_exchange code x }
{
    Detail {
        exchange: x,
        ..plain(code)
    }
}

/// A reason with which a representation goes.
fn of_representation(code: u32, r: u64) -> Detail
    ensures { result ≡ of_representation code r }
{
    Detail {
        representation: r,
        ..plain(code)
    }
}

/// A reason with which two numbers go.
fn of_numbers(code: u32, first: u64, second: u64) -> Detail
    ensures { result ≡ of_numbers code first second }
{
    Detail {
        first,
        second,
        ..plain(code)
    }
}

pub(crate) fn need_detail(need: Need) -> Detail
    ensures { result ≡ need_detail need }
{
    match need {
        Need::Disabled => plain(1),
        Need::TimedOut => plain(2),
        Need::Bypass => plain(3),
        Need::Miss => plain(4),
        Need::Vary => plain(5),
        Need::Validate => plain(6),
        Need::Hole { from, to } => of_numbers(7, from, to),
        Need::Unsatisfied => plain(8),
    }
}

pub(crate) fn why_detail(why: Why) -> Detail
    ensures { result ≡ why_detail why }
{
    match why {
        Why::Fetched(x) => of_exchange(1, x),
        Why::Fresh { age, lifetime } => of_numbers(2, age, lifetime),
        Why::StaleAllowed { age, lifetime } => of_numbers(3, age, lifetime),
        Why::Validated(x) => of_exchange(4, x),
    }
}

pub(crate) fn cause_detail(cause: Cause) -> Detail
    ensures { result ≡ cause_detail cause }
{
    match cause {
        Cause::Net(x) => of_exchange(1, x),
        Cause::Short { x, got, promised } => Detail {
            exchange: x,
            ..of_numbers(2, got, promised)
        },
        Cause::Changed(x) => of_exchange(3, x),
        Cause::StoreWrite(r) => of_representation(4, r),
        Cause::StoreRead(r) => of_representation(5, r),
        Cause::Miss => plain(6),
        Cause::BadHead(x) => of_exchange(7, x),
    }
}

pub(crate) fn wait_detail(wait: Wait) -> Detail
    ensures { result ≡ wait_detail wait }
{
    match wait {
        Wait::Turn(c) => of_numbers(1, c, 0),
        Wait::Busy(c) => of_numbers(2, c, 0),
        Wait::Head(x) => of_exchange(3, x),
        Wait::Body(x) => of_exchange(4, x),
    }
}

pub(crate) fn lost_detail(kind: LostKind) -> Detail
    ensures { result ≡ lost_detail kind }
{
    match kind {
        LostKind::Fault => plain(1),
        LostKind::TooLarge => plain(2),
        LostKind::Full => plain(3),
    }
}

pub(crate) fn refusal_detail(refusal: Refusal) -> Detail
    ensures { result ≡ refusal_detail refusal }
{
    match refusal {
        Refusal::NotRising { last } => of_numbers(1, last, 0),
        Refusal::TooManyConsumers => plain(2),
        Refusal::NoConsumer => plain(3),
        Refusal::Finished => plain(4),
        Refusal::WantZero => plain(5),
        Refusal::NoExchange => plain(6),
        Refusal::HeadTwice => plain(7),
        Refusal::NoHeadYet => plain(8),
        Refusal::NotAsked => plain(9),
        Refusal::EmptyPiece => plain(10),
        Refusal::Overlong { promised } => of_numbers(11, promised, 0),
    }
}
