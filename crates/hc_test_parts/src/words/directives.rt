//! Calls of `hc_cachectl`.
use hc_cachectl::{Directives, read_delta_seconds, read_request, read_response};
use hc_fields::FieldError;
use hc_test_frame::{Vector, fields_of, show};
use hc_text::NoMemory;

/// Writes the value of the call, if it is one of these.
pub(crate) fn call(v: &Vector, to: &mut String) -> Result<bool, FieldError> {
    match v.call() {
        "read_delta_seconds t" => show(&read_delta_seconds(v.text(0)), to)?,
        "read_response t" => report_response(v, to)?,
        "read_request t" => report_request(v, to)?,
        _ => return Ok(false),
    }
    Ok(true)
}

fn report_response(v: &Vector, to: &mut String) -> Result<(), FieldError> {
    let fields = fields_of(v.alloc(), v.text(0))?;
    Ok(note(&read_response(&fields), to)?)
}

fn report_request(v: &Vector, to: &mut String) -> Result<(), FieldError> {
    let fields = fields_of(v.alloc(), v.text(0))?;
    Ok(note(&read_request(&fields), to)?)
}

/// The directives that are there, in brackets.
fn note(said: &Directives, to: &mut String) -> Result<(), NoMemory> {
    to.push('[')?;
    report_seconds(" max-age", said.max_age, to)?;
    report_name(" no-store", said.no_store, to)?;
    report_name(" no-cache", said.no_cache, to)?;
    report_name(" must-revalidate", said.must_revalidate, to)?;
    report_name(" only-if-cached", said.only_if_cached, to)?;
    report_seconds(" min-fresh", said.min_fresh, to)?;
    match said.max_stale {
        Some(None) => to.push_str(" max-stale")?,
        Some(seconds) => report_seconds(" max-stale", seconds, to)?,
        None => {}
    }
    to.push_str(" ]")?;
    Ok(())
}

fn report_name(name: &str, is_said: bool, to: &mut String) -> Result<(), NoMemory> {
    if is_said {
        to.push_str(name)?;
    }
    Ok(())
}

fn report_seconds(name: &str, seconds: Option<u64>, to: &mut String) -> Result<(), NoMemory> {
    if let Some(seconds) = seconds {
        write!(to, "{name}={seconds}")?;
    }
    Ok(())
}
