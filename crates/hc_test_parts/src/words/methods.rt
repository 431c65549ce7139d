//! Calls of `hc_event` on methods.
use hc_event::is_safe;
use hc_test_frame::{Vector, show};
use hc_text::{MethodName, NoMemory};

/// Writes the value of the call, if it is one of these.
pub(crate) fn call(v: &Vector, to: &mut String) -> Result<bool, NoMemory> {
    match v.call() {
        "is_safe t" => {
            let bytes = v.text(0).to_vec(v.alloc())?;
            show(&is_safe(&MethodName { bytes }), to)?;
            Ok(true)
        }
        _ => Ok(false),
    }
}
