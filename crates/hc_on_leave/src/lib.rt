//! What happens where a consumer leaves, an exchange is closed, or something gives way.
#![tactic(auto)]

pub mod acts;
pub mod close;
pub mod evict;
pub mod gone;
pub mod leave;
pub mod lose;
pub mod misread;
pub mod seal;
pub mod writer_group;
pub mod writers;
