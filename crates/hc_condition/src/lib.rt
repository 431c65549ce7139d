//! Requests on condition of a copy that the caller has (RFC 9110 section 13.1): which they are, when that
//! copy holds, and what is told then.
#![tactic(auto)]

mod external;
mod not_modified;
mod shown_acts;

pub use external::is_external;
pub use not_modified::is_not_modified;
pub use shown_acts::{fields_of_304, is_denied, leaves_in, report_all, unconditioned};
