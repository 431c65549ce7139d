//! What a cache has, told as contents.
ghost use Rattle.std.specs.Prelude.{◌≡◌, ◌≤◌, ◌^◌, ◌↔◌, true, IfOk, IsErrOf};
ghost use Rattle.hc_store.specs.declared.error.StoreError.TheVariants.{NoMemory};
ghost use Rattle.hc_store.specs.Causes.{HasCause, HasNoLimit};
ghost use Rattle.hc_contents.specs.PlainContents.{plain_contents};
ghost use Rattle.hc_model.specs.Entries as model;
ghost use Rattle.hc_model.specs.Beginnings.{may_begin};
ghost use Rattle.hc_model.specs.Contents.{contents_of};
ghost use Rattle.hc_model.specs.Tables.{tables};
ghost use Rattle.hc_core.specs.Steps.{StandsFor, faults_in, has_failed, limits_in, live_in, last_moment, steps, bytes_received};

use crate::cache::Cache;
use crate::rows::contents::items_of;
use hc_contents::Contents;
use hc_store::{Backend, StoreError};

impl<B: Backend> Cache<B> {
    /// What every history that the cache represents leaves, while nobody is live. A cache that may
    /// hold as much may begin with it, unless the number of the next exchange is above 2^60. The
    /// cache represents the same histories afterwards, whatever the answer. After a step that
    /// answered NoMemory it represents none, and NoMemory comes.
    pub fn contents(&mut self) -> Result<Contents, StoreError>
        requires idle { live_in self.old ≡ 0 }
        ensures reported { IfOk result (λ found. (contents : model.Contents) (h : model.History)
            → StandsFor self.old contents h
            → plain_contents found ≡ contents_of (tables contents h)) }
        ensures fits { IfOk result (λ found. found.next_exchange ≤ 2 ^ 60
            → may_begin (limits_in self.old) (plain_contents found) ≡ true) }
        ensures same { (contents : model.Contents) (h : model.History)
            → StandsFor self.old contents h ↔ StandsFor self.new contents h }
        ensures limits { limits_in self.new ≡ limits_in self.old }
        ensures moment { last_moment self.new ≡ last_moment self.old }
        ensures steps { steps self.new ≡ steps self.old }
        ensures received { bytes_received self.new ≡ bytes_received self.old }
        ensures failed { has_failed self.new ≡ has_failed self.old }
        ensures again { has_failed self.old ≡ true → IsErrOf result NoMemory }
        ensures no_limit { HasNoLimit result }
        ensures cause { HasCause (faults_in self.old) (faults_in self.new) result }
    {
        if self.failed {
            return Err(StoreError::NoMemory);
        }
        let items = items_of(&mut self.rows.entries)?;
        Ok(Contents {
            now: self.last_moment,
            last_consumer: self.rows.last_start,
            next_exchange: self.rows.exchanges.next_number(),
            items,
        })
    }
}
