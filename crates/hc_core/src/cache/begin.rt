//! A cache that begins with contents.
ghost use Rattle.std.specs.Prelude.{◌≡◌, ◌+◌, [], false, IfOk, IfErr};
ghost use Rattle.hc_store.specs.Slots.{no_slots};
ghost use Rattle.hc_contents.specs.PlainContents.{plain_contents};
ghost use Rattle.hc_core.specs.Begins.{IsRefusal};
ghost use Rattle.hc_core.specs.Steps.{StandsFor, ServesAll, faults_in, has_failed, limits_in, steps, bytes_received};

use crate::begin::{ContentsError, ContentsRefused, failure_of, refusal_of};
use crate::cache::Cache;
use crate::rows::begin::{before, begin_with};
use hc_contents::Contents;
use hc_rules::Limits;
use hc_store::Backend;
use std::alloc::Global;

impl<B: Backend> Cache<B> {
    /// Stands for the history that begins with these contents and has no entry, and for each run that
    /// leaves them with nobody live, over an empty store that may hold so much. BadContent exactly
    /// where an item isn't good, or else the moment or a number is too large; Full exactly where that
    /// isn't so, and all weigh more than they may: the store is as it was then.
    pub fn with_contents(
        backend: B,
        limits: Limits,
        contents: &Contents,
        alloc: Global,
    ) -> Result<Cache<B>, ContentsRefused<B>>
        requires empty { B.slots backend ≡ no_slots }
        requires limits { B.limits backend ≡ limits }
        ensures stands { IfOk result
            (λ cache. StandsFor cache (plain_contents contents.entry.now) []) }
        ensures serves { IfOk result
            (λ cache. ServesAll cache (plain_contents contents.entry.now)) }
        ensures unused { IfOk result (λ cache. steps cache + bytes_received cache ≡ 0) }
        ensures limits { IfOk result (λ cache. limits_in cache ≡ limits) }
        ensures calm { IfOk result (λ cache. faults_in cache ≡ B.faults backend) }
        ensures ready { IfOk result (λ cache. has_failed cache ≡ false) }
        ensures refused { IfErr result
            (λ refused. IsRefusal B.faults B.limits limits (plain_contents contents.entry.now)
            backend refused) }
    {
        if let Some(why) = refusal_of(contents, limits, alloc) {
            return Err(ContentsRefused { why, backend });
        }
        let mut rows = match before(backend, limits, contents, alloc) {
            Ok(rows) => rows,
            Err(backend) => {
                let why = ContentsError::NoMemory;
                return Err(ContentsRefused { why, backend });
            }
        };
        if let Err(error) = begin_with(&mut rows, contents) {
            let why = failure_of(error);
            let backend = rows.entries.into_store();
            return Err(ContentsRefused { why, backend });
        }
        Ok(Cache {
            failed: false,
            last_moment: contents.now,
            steps: 0,
            received: 0,
            rows,
        })
    }
}
