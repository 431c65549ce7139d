//! What a cache keeps, the changes of it, and when it represents what the tables of a run say.
#![tactic(auto)]

mod changes;
mod consumer;
mod founded;
mod rows;
mod stop;
mod stored;

pub use changes::{
    bind_first, bind_shown, count_given, disown, fail_with, know_end, know_ends, let_pass, line_up,
    make_all_due, make_due, own, part, read_founded, read_past, show, show_answer, stand,
    start_over, start_over_if_passed, take_answer, take_turn,
};
pub use consumer::awaited;
pub use founded::{Founding, founded_head};
pub use hc_txn::Transaction;
pub use rows::Rows;
pub use stop::{Disposition, Readers};
pub use stored::renewed;
