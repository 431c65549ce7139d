//! The words of reports as arguments: a name, and numbers behind it, as `short:7:3/5`.
use hc_event::{Cause, LostKind, Need, Refusal, Wait, Why};
use hc_range::Span;
use hc_rules::{Bound, BoundKind, Wanted};
use hc_test_frame::{Fault, Vector};

/// The name of the word at this place, and its numbers: 0 for one that isn't there.
pub(crate) fn parts_at(v: &Vector, at: usize) -> Result<(&str, [u64; 3]), Fault> {
    let word = v.word(at);
    let (name, rest) = word.split_once(':').unwrap_or((word, "0"));
    let mut numbers = [0; 3];
    let mut pieces = rest.split(|c: char| !c.is_ascii_digit());
    for number in &mut numbers {
        let Some(piece) = pieces.next() else {
            break;
        };
        *number = piece.parse::<u64>().map_err(|_| Fault::BadNumber)?;
    }
    Ok((name, numbers))
}

/// Why an exchange is opened.
pub(crate) fn need_at(v: &Vector, at: usize) -> Result<Need, Fault> {
    Ok(match parts_at(v, at)? {
        ("disabled", _) => Need::Disabled,
        ("timed-out", _) => Need::TimedOut,
        ("bypass", _) => Need::Bypass,
        ("miss", _) => Need::Miss,
        ("vary", _) => Need::Vary,
        ("validate", _) => Need::Validate,
        ("hole", [from, to, _]) => Need::Hole { from, to },
        ("unsatisfied", _) => Need::Unsatisfied,
        _ => return Err(Fault::NoSuchCall),
    })
}

/// Why a head may be shown.
pub(crate) fn why_at(v: &Vector, at: usize) -> Result<Why, Fault> {
    Ok(match parts_at(v, at)? {
        ("fetched", [x, _, _]) => Why::Fetched(x),
        ("fresh", [age, lifetime, _]) => Why::Fresh { age, lifetime },
        ("stale", [age, lifetime, _]) => Why::StaleAllowed { age, lifetime },
        ("validated", [x, _, _]) => Why::Validated(x),
        _ => return Err(Fault::NoSuchCall),
    })
}

/// Why a consumer fails.
pub(crate) fn cause_at(v: &Vector, at: usize) -> Result<Cause, Fault> {
    Ok(match parts_at(v, at)? {
        ("net", [x, _, _]) => Cause::Net(x),
        ("short", [x, got, promised]) => Cause::Short { x, got, promised },
        ("changed", [x, _, _]) => Cause::Changed(x),
        ("store-write", [r, _, _]) => Cause::StoreWrite(r),
        ("store-read", [r, _, _]) => Cause::StoreRead(r),
        ("miss", _) => Cause::Miss,
        ("bad-head", [x, _, _]) => Cause::BadHead(x),
        _ => return Err(Fault::NoSuchCall),
    })
}

/// What a consumer waits for.
pub(crate) fn wait_at(v: &Vector, at: usize) -> Result<Wait, Fault> {
    Ok(match parts_at(v, at)? {
        ("turn", [c, _, _]) => Wait::Turn(c),
        ("busy", [c, _, _]) => Wait::Busy(c),
        ("head", [x, _, _]) => Wait::Head(x),
        ("body", [x, _, _]) => Wait::Body(x),
        _ => return Err(Fault::NoSuchCall),
    })
}

/// Why a representation is lost.
pub(crate) fn kind_at(v: &Vector, at: usize) -> Result<LostKind, Fault> {
    Ok(match v.word(at) {
        "fault" => LostKind::Fault,
        "too-large" => LostKind::TooLarge,
        "full" => LostKind::Full,
        _ => return Err(Fault::NoSuchCall),
    })
}

/// The refusal of this number, with what it tells.
pub(crate) fn refusal_of(number: u64, reported: u64) -> Result<Refusal, Fault> {
    Ok(match number {
        1 => Refusal::NotRising { last: reported },
        2 => Refusal::TooManyConsumers,
        3 => Refusal::NoConsumer,
        4 => Refusal::Finished,
        5 => Refusal::WantZero,
        6 => Refusal::NoExchange,
        7 => Refusal::HeadTwice,
        8 => Refusal::NoHeadYet,
        9 => Refusal::NotAsked,
        10 => Refusal::EmptyPiece,
        11 => Refusal::Overlong { promised: reported },
        _ => return Err(Fault::NoSuchCall),
    })
}

/// The interval that is wanted of a body.
pub(crate) fn wanted_at(v: &Vector, at: usize) -> Result<Wanted, Fault> {
    Ok(match parts_at(v, at)? {
        ("unknown", _) => Wanted::TotalUnknown,
        ("unsatisfiable", _) => Wanted::Unsatisfiable,
        ("span", [lo, hi, _]) => Wanted::Interval(Span { lo, hi }),
        _ => return Err(Fault::NoSuchCall),
    })
}

/// A span, if there is one.
pub(crate) fn span_at(v: &Vector, at: usize) -> Result<Option<Span>, Fault> {
    Ok(match parts_at(v, at)? {
        ("span", [lo, hi, _]) => Some(Span { lo, hi }),
        ("", _) => None,
        _ => return Err(Fault::NoSuchCall),
    })
}

/// A consumer that is bound to a representation, by how it is.
pub(crate) fn bound_at(v: &Vector, at: usize) -> Result<Bound, Fault> {
    let (name, [c, _, _]) = parts_at(v, at)?;
    let kind = match name {
        "shared" => BoundKind::Shared,
        "exclusive" => BoundKind::Exclusive,
        "reader" => BoundKind::Reader,
        _ => return Err(Fault::NoSuchCall),
    };
    Ok(Bound { c, kind })
}
