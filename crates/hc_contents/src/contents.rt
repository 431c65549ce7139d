//! Contents.
use crate::list::{ContentList, RunList};
use hc_record::StoredHead;
use hc_text::Key;

/// A representation with which a cache begins.
#[derive(Drop)]
pub struct Content {
    /// A target.
    pub key: Key,
    /// Its number, that of the exchange that founded it.
    pub r: u64,
    /// Its head, with its kind and its length.
    pub head: StoredHead,
    /// What is stored of it.
    pub runs: RunList,
}

/// What a cache begins with. Moments are whole seconds since 1970.
#[derive(Drop)]
pub struct Contents {
    /// The moment of the last event.
    pub now: u64,
    /// The number of the last consumer that started.
    pub last_consumer: u64,
    /// The number of the next exchange.
    pub next_exchange: u64,
    /// What is current, first the one to which none was bound for longest.
    pub items: ContentList,
}
