//! What is kept: live consumers, exchanges, keys and representations.
use hc_entry::KeyTable;
use hc_exch::Exchanges;
use hc_store::Backend;
use hc_stored::Entries;
use hc_txn::Transaction;
use std::collections::HashMap;

/// What is kept of the past: live consumers, open exchanges and what is held of them, who waits for
/// each key, and the representations that are current or used. It is a plain record: what is done to
/// it, and that it represents the tables of a run, is said by the contracts of those who do it.
#[derive(Drop)]
pub struct Rows<B: Backend> {
    /// The number of the last consumer that started.
    pub last_start: u64,
    /// The live ones, by number.
    pub consumers: HashMap<u64, Transaction>,
    pub exchanges: Exchanges,
    pub keys: KeyTable,
    pub entries: Entries<B>,
}
