//! Freshness (RFC 9111): for how long a stored head may be used, how old it is, and whether it may
//! answer a request without validation. Nothing here takes memory.
#![tactic(auto)]

mod ages;
mod allowing;
mod dates;
mod facts;
mod laws;
mod lifetimes;
mod vary;

pub use allowing::allowed_to;
pub use dates::date_in;
pub use facts::{HeadFacts, RequestFacts};
pub use laws::uses_are_right;
pub use vary::vary_matches;
