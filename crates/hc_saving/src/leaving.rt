//! Who is live leaves.
ghost use Rattle.std.specs.Prelude.{◌≡◌, ◌<◌, ◌≤◌, ◌+◌, ◌^◌, true, length, OnOk, IfOk};
ghost use Rattle.hc_model.specs.Beginnings.{may_begin};
ghost use Rattle.hc_model.specs.Entries as model;
ghost use Rattle.hc_model.specs.Entries.{History, no_contents};
ghost use Rattle.hc_contents.specs.PlainContents.{plain_contents};
ghost use Rattle.hc_core.specs.Steps.{StandsFor, last_moment, steps, bytes_received, limits_in, live_in};
ghost use Rattle.hc_saving.specs.LeftCaches.{HasLeft, StandsForAny};
ghost use Rattle.hc_saving.specs.Recovers.{IsLeftBehind};
ghost use Rattle.hc_saving.specs.Saves.{IsLeft};

use crate::kept::kept_contents;
use hc_contents::Contents;
use hc_core::Cache;
use hc_event::{Acts, Event};
use hc_image::write_image;
use hc_store::Memory;
use hc_text::NoMemory;
use std::alloc::Global;

/// The image of what the cache leaves once all who are live have left. The cache began empty.
pub(crate) fn image_left(alloc: Global, cache: Cache<Memory>) -> Result<Vec<u8>, NoMemory>
    requires stands { ∥ StandsForAny cache ∥₁ }
    requires early { last_moment cache < 2 ^ 62 }
    requires few { steps cache ≤ 2 ^ 59 }
    requires little { bytes_received cache ≤ 2 ^ 60 }
    ensures { IfOk result (λ image. (h : History) → StandsFor cache no_contents h
        → steps cache ≡ length h → IsLeft (limits_in cache) h image.items) }
{
    // The cache is gone before the image takes as much memory.
    let contents = contents_left(alloc, cache)?;
    write_image(alloc, &contents)
}

/// What the cache leaves once all who are live have left.
pub(crate) fn contents_left(alloc: Global, cache: Cache<Memory>) -> Result<Contents, NoMemory>
    requires stands { ∥ StandsForAny cache ∥₁ }
    requires early { last_moment cache < 2 ^ 62 }
    requires few { steps cache ≤ 2 ^ 59 }
    requires little { bytes_received cache ≤ 2 ^ 60 }
    ensures left { IfOk result (λ found. (contents : model.Contents) (h : History)
        → StandsFor cache contents h
        → IsLeftBehind (limits_in cache) contents h (plain_contents found)) }
    ensures fits { IfOk result (λ found. found.next_exchange ≤ 2 ^ 60
        → may_begin (limits_in cache) (plain_contents found) ≡ true) }
{
    let mut cache = cache;
    leave_all(alloc, &mut cache)?;
    kept_contents(&mut cache)
}

/// All who are live leave, the lowest number first, at the moment of the last event.
fn leave_all(alloc: Global, cache: &mut Cache<Memory>) -> Result<(), NoMemory>
    requires stands { ∥ StandsForAny cache.old ∥₁ }
    requires early { last_moment cache.old < 2 ^ 62 }
    requires few { steps cache.old ≤ 2 ^ 59 }
    requires little { bytes_received cache.old ≤ 2 ^ 60 }
    ensures left { OnOk result ((contents : model.Contents) (h : History)
        → StandsFor cache.old contents h → HasLeft cache.old cache.new contents h) }
    ensures nobody { OnOk result (live_in cache.new ≡ 0) }
    ensures limits { OnOk result (limits_in cache.new ≡ limits_in cache.old) }
    ensures few { OnOk result (steps cache.new ≤ steps cache.old + 1024) }
{
    let mut acts = Acts::new(alloc);
    let now = cache.last_moment();
    while let Some(c) = cache.least_live() {
        acts.clear();
        cache.step(now, &Event::Cancel { c }, &mut acts)?;
    }
    Ok(())
}
