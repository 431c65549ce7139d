//! A store's folder in the file system, and its lock.
#![tactic(auto)]

mod files;
mod folder;
mod locking;

pub use folder::StdFolder;
pub use locking::{Locked, lock};
