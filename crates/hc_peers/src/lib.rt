//! Who is connected: clients with the answers that they are owed, and connections to the origin.
#![tactic(auto)]

mod client;
mod clients;
mod handed;
mod note;
mod outbox;
mod queue;
mod reply;
mod status;
mod upstream;
mod upstreams;

pub use client::{Client, addressee};
pub use clients::{Clients, NextRequest};
pub use outbox::Outbox;
pub use queue::Queue;
pub use reply::{Asking, Form, Reply, is_head};
pub use status::{error_answer, failure_answer};
pub use upstream::Upstream;
pub use upstreams::Upstreams;
