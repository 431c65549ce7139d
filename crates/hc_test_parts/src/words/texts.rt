//! Calls of `hc_text`.
use hc_test_frame::{Vector, quote, show};
use hc_text::{NoMemory, is_token, next_item, read_number, read_plain, write_number};

/// Writes the value of the call, if it is one of these.
pub(crate) fn call(v: &Vector, to: &mut String) -> Result<bool, NoMemory> {
    let text = v.text(0);
    match v.call() {
        "is_token t" => show(&is_token(text), to),
        "read_number t" => show(&read_number(text), to),
        "read_plain t" => show(&read_plain(text), to),
        "next_item tn" => show(&next_item(text, v.number(1) as usize), to),
        "elements t" => write_elements(text, to),
        "write_number n" => write_numbers(v, &[v.number(0)], to),
        "write_numbers nn" => write_numbers(v, &[v.number(0), v.number(1)], to),
        _ => return Ok(false),
    }?;
    Ok(true)
}

/// What repeated calls of `next_item` give, up to the one that gives none.
fn write_elements(text: &[u8], to: &mut String) -> Result<(), NoMemory> {
    let mut from = 0;
    for _ in 0..=text.len() {
        let Some(item) = next_item(text, from) else {
            to.push_str("None")?;
            break;
        };
        quote(text.get(item.start..item.end).unwrap_or(text), to)?;
        to.push(' ')?;
        from = item.next;
    }
    Ok(())
}

/// The text of the numbers, each appended to that of the one before.
fn write_numbers(v: &Vector, numbers: &[u64], to: &mut String) -> Result<(), NoMemory> {
    let mut bytes = Vec::new(v.alloc());
    for n in numbers {
        write_number(*n, &mut bytes)?;
    }
    quote(&bytes, to)
}
