//! Calls of `hc_range`.
use hc_range::{
    RangeSpec, Span, read_content_range, read_range, resolve, write_content_range, write_range,
};
use hc_test_frame::{Vector, quote, show};
use hc_text::NoMemory;

/// Writes the value of the call, if it is one of these.
pub(crate) fn call(v: &Vector, to: &mut String) -> Result<bool, NoMemory> {
    let text = v.text(0);
    let (a, b, c) = (v.number(0), v.number(1), v.number(2));
    match v.call() {
        "read_range t" => show(&read_range(text), to),
        "read_content_range t" => show(&read_content_range(text), to),
        "resolve_from nn" => show(&resolve(RangeSpec::From(a), b), to),
        "resolve_from_to nnn" if a <= b => show(&resolve(RangeSpec::FromTo(a, b), c), to),
        "resolve_last nn" => show(&resolve(RangeSpec::Last(a), b), to),
        "write_range nnn" | "write_content_range nnn" => return report_span(v, to),
        _ => return Ok(false),
    }?;
    Ok(true)
}

/// What is written of a span of a representation, as the one field or as the other.
fn report_span(v: &Vector, to: &mut String) -> Result<bool, NoMemory> {
    let (lo, hi, total) = (v.number(0), v.number(1), v.number(2));
    if lo >= hi || hi > total || total >= 1 << 62 {
        return Ok(false);
    }
    let mut text = Vec::new(v.alloc());
    if v.name() == "write_range" {
        write_range(Span { lo, hi }, total, &mut text)
    } else {
        write_content_range(Span { lo, hi }, total, &mut text)
    }?;
    quote(&text, to)?;
    Ok(true)
}
