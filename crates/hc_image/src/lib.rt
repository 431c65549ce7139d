//! The image of what a store has: a text that is written of its contents, and read again.
#![tactic(auto)]

mod cursor;
mod item;
mod laws;
mod read;
mod record;
mod runs;
mod write;

pub use laws::{contents_have_images, images_spell_contents_apart};
pub use read::{ImageRead, read_image};
pub use write::write_image;
