//! A store's folder: what its files are, and what reads and writes them.
#![tactic(auto)]

mod block;
mod blocks;
mod folder;
mod image;
mod reading;
mod recording;
mod renewing;
mod sum;

pub use block::write_block;
pub use blocks::{RecordError, read_record};
pub use folder::{Folder, FolderError, ImageFound};
pub use image::{ImageFile, make_image_file, read_image_file};
pub use reading::{FilesError, Said, read_files};
pub use recording::{Closed, Recorder, Standing, Unwritten};
pub use renewing::renew;
pub use sum::Sum;
