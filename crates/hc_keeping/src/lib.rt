//! What a store's folder keeps: it is recovered of the image and the record that lie there. And the new
//! image of what was recovered.
#![tactic(auto)]

mod image;
mod keeping;

pub use image::{NewImage, new_image};
pub use keeping::{KeepError, Kept, recover_kept};
