//! A store that outlives the program: it is saved as an image, goes on from one, and is recovered from
//! one and a first part of the record behind it.
#![tactic(auto)]

mod begin;
mod kept;
mod leaving;
mod nowhere;
mod open;
mod recovering;
mod reopening;
mod saving;
mod silent;

pub use kept::kept_contents;
pub use open::OpenEnded;
pub use recovering::{RecoverError, recover};
pub use reopening::reopen;
pub use saving::save;
