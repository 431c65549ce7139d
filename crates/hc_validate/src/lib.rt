//! Validation (RFC 9111 sections 3.2, 4.3 and 5.1): the requests that the cache makes by itself, which
//! answers are about what is stored, how a stored head is updated, and what is shown of it.
#![tactic(auto)]

mod asking;
mod conditions;
mod origin;
mod selection;
mod setting;
mod showing;
mod tags;
mod updates;

pub use conditions::conditional;
pub use origin::{Answer, origin_answer, origin_byte};
pub use selection::selects;
pub use setting::set_field;
pub use showing::shown;
pub use updates::update;
