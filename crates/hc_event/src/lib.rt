//! What comes from outside, what the cache does and where a consumer stands: plain data, the list of
//! acts of a step, and the trait of what is stepped.
#![tactic(auto)]

mod act;
mod acts;
mod drain;
mod event;
mod place;
mod safe;
mod stepper;

pub use act::{Act, Cause, LostKind, Need, Refusal, Wait, Why};
pub use acts::Acts;
pub use drain::Drain;
pub use event::{Event, Load, Request, Response};
pub use place::{BoundBy, Place};
pub use safe::is_safe;
pub use stepper::Stepper;
