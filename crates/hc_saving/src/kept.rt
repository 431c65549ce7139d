//! What a cache in memory has.
ghost use Rattle.std.specs.Prelude.{◌≡◌, ◌↔◌, ◌≤◌, ◌^◌, true, IfOk, IsErr};
ghost use Rattle.hc_model.specs.Beginnings.{may_begin};
ghost use Rattle.hc_model.specs.Contents.{contents_of};
ghost use Rattle.hc_model.specs.Entries as model;
ghost use Rattle.hc_model.specs.Tables.{tables};
ghost use Rattle.hc_contents.specs.PlainContents.{plain_contents};
ghost use Rattle.hc_core.specs.Steps.{StandsFor, has_failed, last_moment, steps, bytes_received, limits_in, live_in};

use hc_contents::Contents;
use hc_core::Cache;
use hc_store::{Memory, StoreError};
use hc_text::NoMemory;

/// What the cache has, while nobody is live. A store in memory never fails, so only memory may be
/// refused. What the cache stands for stays.
pub fn kept_contents(cache: &mut Cache<Memory>) -> Result<Contents, NoMemory>
    requires idle { live_in cache.old ≡ 0 }
    ensures reported { IfOk result (λ found. (contents : model.Contents) (h : model.History)
        → StandsFor cache.old contents h
        → plain_contents found ≡ contents_of (tables contents h)) }
    ensures fits { IfOk result (λ found. found.next_exchange ≤ 2 ^ 60
        → may_begin (limits_in cache.old) (plain_contents found) ≡ true) }
    ensures same { (contents : model.Contents) (h : model.History)
        → StandsFor cache.old contents h ↔ StandsFor cache.new contents h }
    ensures limits { limits_in cache.new ≡ limits_in cache.old }
    ensures moment { last_moment cache.new ≡ last_moment cache.old }
    ensures steps { steps cache.new ≡ steps cache.old }
    ensures received { bytes_received cache.new ≡ bytes_received cache.old }
    ensures failed { has_failed cache.new ≡ has_failed cache.old }
    ensures again { has_failed cache.old ≡ true → IsErr result }
{
    match cache.contents() {
        Ok(contents) => Ok(contents),
        Err(StoreError::NoMemory) => Err(NoMemory),
        Err(_) => unreachable!(),
    }
}
