//! The decision tables of the cache, each over plain values: no history, store or state is named.
#![tactic(auto)]

mod admission;
mod heads;
mod joins;
mod laws;
mod least;
mod length;
mod need;
mod plan;
mod range_text;
mod reading;
mod refusal;
mod request;
mod room;
mod status;
mod survivor;
mod tag_text;

pub use admission::{Admission, Bound, BoundKind, admission_of, least_bound, least_of};
pub use heads::{HeadCase, HeadView, fits_to_found, head_case, is_conditional, is_storable};
pub use joins::{HoleAnswer, hole_answer};
pub use laws::{
    admissions_are_right, cases_are_right, denials_are_least, joins_are_right, lengths_are_right,
    plans_are_right, shortest_gives_way, steps_are_right, survivors_are_least, texts_are_spelled,
};
pub use least::lesser;
pub use length::{Length, length_of};
pub use need::{Route, route_of};
pub use plan::{Candidate, Plan, PlanView, plan_of};
pub use range_text::content_range_of;
pub use reading::{ReadStep, ReadView, read_step};
pub use refusal::{Gate, OpenExchange, exchange_refusal, refusal_of};
pub use request::{RequestClass, Wanted, class_of, wanted_of};
pub use room::{Limits, Room, SLOT_WEIGHT, Write};
pub use status::{brings_part, brings_whole};
pub use survivor::Member;
