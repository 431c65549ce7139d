//! Calls of `hc_head`.
use crate::reported::{report_request, report_response};
use hc_head::{ParsedHead, Scan, Sought, call_of, find_end, line_end, reply_of};
use hc_test_frame::{Fault, Vector, note};

/// Whole heads have no more bytes.
const MOST: usize = 32_768;

/// Writes the value of the call. `NoSuchCall` where it is none of these.
pub(crate) fn call(v: &Vector, to: &mut String) -> Result<(), Fault> {
    match v.call() {
        "call_of t" => report_call(v, to),
        "reply_of wt" => report_reply(v, to),
        "find_end t" => report_end(v, to),
        "line_end t" => note(&line_end(v.text(0)), to),
        _ => Err(Fault::NoSuchCall),
    }
}

/// Writes what the head of a request asks for.
fn report_call(v: &Vector, to: &mut String) -> Result<(), Fault> {
    let text = v.text(0);
    if text.len() > MOST {
        return Err(Fault::NoSuchCall);
    }
    match call_of(v.alloc(), text) {
        Ok(asked) => report_request(&asked.request, to),
        Err(e) => note(&e, to),
    }
}

/// Writes what the head of an answer comes to, where the request was a HEAD or not.
fn report_reply(v: &Vector, to: &mut String) -> Result<(), Fault> {
    let text = v.text(1);
    if text.len() > MOST {
        return Err(Fault::NoSuchCall);
    }
    match reply_of(v.alloc(), v.word(0) == "head", text) {
        Ok(reply) => report_read(&reply, to),
        Err(e) => note(&e, to),
    }
}

fn report_read(reply: &ParsedHead, to: &mut String) -> Result<(), Fault> {
    match reply {
        ParsedHead::Skips => Ok(to.push_str("skips")?),
        ParsedHead::Shows(response, framing) => {
            note(framing, to)?;
            to.push(' ')?;
            report_response(response, to)
        }
    }
}

/// Writes where the head ends.
fn report_end(v: &Vector, to: &mut String) -> Result<(), Fault> {
    match find_end(0, Scan::Before, v.text(0)) {
        Ok(Sought::Ends(end)) => {
            to.push_str("ends at ")?;
            note(&end, to)
        }
        Ok(Sought::Open(scan)) => {
            to.push_str("open ")?;
            note(&scan, to)
        }
        Err(e) => note(&e, to),
    }
}
