//! Fields of HTTP heads (RFC 9110 section 5): a list sorted by name, within the limits of the cache.
//!
//! A name is matched in any case, and is kept in lower case.
#![tactic(auto)]

mod agree;
mod error;
mod fields;
mod joining;
mod lines;
mod list;
mod mark;
mod once;
mod reading;
mod search;
mod value;

pub use agree::agree_on;
pub use error::FieldError;
pub use fields::Fields;
pub use list::FieldList;
pub use once::{has_field, only_value};
