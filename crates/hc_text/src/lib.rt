//! Small types of bytes, numbers, tokens and lists of elements: the bottom of the workspace.
#![tactic(auto)]

mod blank;
mod body;
mod law;
mod list;
mod memory;
mod names;
mod number;
mod sorted;
mod split;
mod token;

pub use blank::is_blank;
pub use body::Bytes;
pub use law::{a_text_has_one_cut, calls_give_the_elements};
pub use list::{Item, next_item};
pub use memory::NoMemory;
pub use names::{Key, MethodName, Value};
pub use number::{read_number, read_plain, write_number};
pub use sorted::{
    Numbered, has_item, item_at, leave_out, put_in, put_reserved, replace_in, take_out,
};
pub use split::{cut, lacks, position_of};
pub use token::is_token;
