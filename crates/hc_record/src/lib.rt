//! Stored heads and their records: the text in which a store keeps a head.
#![tactic(auto)]

mod cursor;
mod head;
mod joining;
mod kind;
mod law;
mod parts;
mod read;
mod seal;
mod version;
mod write;

pub use head::StoredHead;
pub use joining::joining_tag;
pub use kind::Kind;
pub use law::records_spell_heads_apart;
pub use read::read_record;
pub use seal::seal_record;
pub use version::Version;
pub use write::write_record;
