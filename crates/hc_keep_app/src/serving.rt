//! A store is served that a folder keeps, and what happens is kept there.
ghost use Rattle.std.specs.Prelude.{◌≡◌, ◌≢◌, ℕ, IfOk, IfErr, IfSome, OnOk, OnErr};
ghost use Rattle.hc_contents.specs.PlainContents.{plain_contents};
ghost use Rattle.hc_wire.specs.Events.{Unseen};
ghost use Rattle.hc_proxy.specs.Endings.{IsFresh};
ghost use Rattle.hc_core.specs.declared.begin.ContentsError.TheVariants as refusal;
ghost use Rattle.hc_keep_app.specs.Serving.{HasEndedWire, HasFolderEnd, HasRefusedWire, IsBegun, IsReady, IsServed, IsUnready, IsUnserved, unserved_by};

use hc_contents::Contents;
use hc_core::{Cache, ContentsError};
use hc_folder::{Folder, Recorder, Standing};
use hc_keeping::{KeepError, Kept, NewImage, new_image, recover_kept};
use hc_proxy::serve_from;
use hc_rules::Limits;
use hc_sched::Ended;
use hc_store::Memory;
use hc_text::NoMemory;
use hc_wire::{Address, Wire, WireError};
use std::alloc::Global;

/// Numbers of records are below this.
const NUMBERS: u64 = 1 << 62;

/// The number of the last consumer is below this, so that there is one for each that comes.
const CONSUMERS: u64 = 1 << 61;

/// How a store is served.
#[derive(Clone, Copy)]
pub struct Serving {
    pub limits: Limits,
    pub listen: Address,
    pub origin: Address,
    pub turns: u64,
}

/// Why a store isn't served.
#[derive(Clone, Copy)]
pub enum Unserved {
    /// Nothing is recovered.
    Unrecovered(KeepError),
    /// What is recovered has used up its numbers.
    UsedUp,
    /// The wire can't listen, and counted that.
    Unbound,
    /// There was not enough memory.
    NoMemory,
}

impl From<NoMemory> for Unserved {
    ghost use Rattle.std.specs.Prelude.{◌≡◌};
    ghost use Rattle.hc_keep_app.specs.declared.serving.Unserved.TheVariants as why;

    ghost from_gives = { λ _ e. e ≡ why.NoMemory };

    fn from(_: NoMemory) -> Self {
        Unserved::NoMemory
    }
}

impl From<KeepError> for Unserved {
    ghost use Rattle.std.specs.Prelude.{◌≡◌};
    ghost use Rattle.hc_keep_app.specs.declared.serving.Unserved.TheVariants as why;

    ghost from_gives = { λ e of. of ≡ why.Unrecovered e };

    fn from(e: KeepError) -> Self {
        Unserved::Unrecovered(e)
    }
}

impl From<WireError> for Unserved {
    ghost use Rattle.std.specs.Prelude.{◌≡◌};
    ghost use Rattle.hc_keep_app.specs.Serving.{of_wire};

    ghost from_gives = { λ e of. of ≡ of_wire e };

    fn from(e: WireError) -> Self {
        match e {
            WireError::WireFailed => Unserved::Unbound,
            WireError::NoMemory => Unserved::NoMemory,
        }
    }
}

/// A folder whose store was served.
#[derive(Drop)]
pub struct Served<F> {
    pub folder: F,
    pub ended: Ended,
    /// What of the record stands in the folder.
    pub standing: Standing,
}

/// A folder whose store isn't served.
#[derive(Drop)]
pub struct Refused<F> {
    pub folder: F,
    pub why: Unserved,
}

/// Is told what a store has before it is served.
pub trait Watcher {
    /// It has these contents, and is listened for.
    fn begins(&mut self, contents: &Contents);
}

/// What was recovered, as it is served: a cache that begins with it, and its new image.
#[derive(Drop)]
pub struct Ready {
    cache: Cache<Memory>,
    /// The number of the last consumer.
    last: u64,
    image: NewImage,
    /// The number of the record that is to stand behind the image.
    next: u64,
}

/// Serves what a folder keeps, over a wire that listens first, and keeps in the folder what happens. The
/// new image is put before the first turn. A front answers requests on condition of a copy that a client
/// has. Where nothing is served, no file of the folder has changed, and the wire is as it was.
pub fn serve_kept<F: Folder + Drop, W: Wire, T: Watcher>(
    alloc: Global,
    serving: Serving,
    folder: F,
    wire: &mut W,
    watcher: &mut T,
) -> Result<Served<F>, Refused<F>>
    requires fresh { IfSome (W.log wire.old) IsFresh }
    requires unseen { (k : ℕ) → W.stages wire.old k ≡ Unseen }

    // What is served is what the files said, as `recover_kept` and `serve_from` tell. Then they say the
    // image of that, and a first part of what was recorded.
    ensures served { IfOk result (λ served. IsServed serving (F.files folder) (W.log wire.old)
        (W.log wire.new) (F.files served.folder) served.standing served.ended) }
    ensures refused { IfErr result (λ refused. IsUnserved serving.limits (F.files folder)
        refused.why) }
    ensures files { IfErr result (λ refused. F.files refused.folder ≡ F.files folder) }
    ensures unasked { OnErr result (W.log wire.new ≡ W.log wire.old) }
    ensures folder { IfErr result (λ refused. HasFolderEnd (F.faults folder)
        (F.faults refused.folder) refused.why) }
    ensures wire { IfOk result (λ served. HasEndedWire (W.faults wire.old) (W.faults wire.new)
        served.ended) }
    ensures unbound { IfErr result (λ refused. HasRefusedWire (W.faults wire.old)
        (W.faults wire.new) refused.why) }
{
    let mut folder = folder;
    let ready = match begin(alloc, serving, &mut folder, wire, watcher) {
        Ok(ready) => ready,
        Err(why) => return Err(Refused { folder, why }),
    };
    let image = ready.image;
    let mut log = Recorder::begin(alloc, folder, image.file, ready.next, image.sum);
    let ended = serve_from(
        alloc,
        ready.cache,
        ready.last,
        true,
        wire,
        &mut log,
        serving.turns,
    );
    let closed = log.close();
    Ok(Served {
        folder: closed.folder,
        ended,
        standing: closed.standing,
    })
}

/// Recovers what a folder keeps, and then listens. The folder's files are as they were.
fn begin<F: Folder, W: Wire, T: Watcher>(
    alloc: Global,
    serving: Serving,
    folder: &mut F,
    wire: &mut W,
    watcher: &mut T,
) -> Result<Ready, Unserved>
    ensures begun { IfOk result (IsBegun serving (F.files folder.old) (W.log wire.old)
        (W.log wire.new)) }
    ensures refused { IfErr result (IsUnserved serving.limits (F.files folder.old)) }
    ensures files { F.files folder.new ≡ F.files folder.old }
    ensures unasked { OnErr result (W.log wire.new ≡ W.log wire.old) }
    ensures stages { (k : ℕ) → W.stages wire.new k ≡ W.stages wire.old k }
    ensures folder { IfErr result (HasFolderEnd (F.faults folder.old) (F.faults folder.new)) }
    ensures wire { OnOk result (W.faults wire.new ≡ W.faults wire.old) }
    ensures unbound { IfErr result (HasRefusedWire (W.faults wire.old) (W.faults wire.new)) }
{
    let kept = recover_kept(alloc, serving.limits, folder)?;
    let ready = ready_with(alloc, serving.limits, &kept)?;
    wire.bind(Some(serving.listen), Some(serving.origin))?;
    watcher.begins(&kept.contents);
    Ok(ready)
}

/// Makes a cache and a new image of what was recovered.
fn ready_with(alloc: Global, limits: Limits, kept: &Kept) -> Result<Ready, Unserved>
    ensures ok { IfOk result (IsReady limits (plain_contents kept.entry.now.contents)
        kept.entry.now.next) }
    ensures err { IfErr result (IsUnready limits (plain_contents kept.entry.now.contents)
        kept.entry.now.next) }
{
    let last = kept.contents.last_consumer;
    if kept.next >= NUMBERS {
        return Err(Unserved::UsedUp);
    }
    if last >= CONSUMERS {
        return Err(Unserved::UsedUp);
    }
    let image = new_image(alloc, &kept.contents, kept.next)?;
    let store = Memory::new(alloc, limits);
    match Cache::with_contents(store, limits, &kept.contents, alloc) {
        Ok(cache) => Ok(Ready {
            cache,
            last,
            image,
            next: kept.next,
        }),
        Err(refused) => Err(unserved_as(refused.why)),
    }
}

/// Why no cache begins. A store in memory doesn't fail.
fn unserved_as(why: ContentsError) -> Unserved
    requires { why ≢ refusal.Fault }
    ensures { result ≡ unserved_by why }
{
    match why {
        ContentsError::BadContent { .. } | ContentsError::Full => Unserved::UsedUp,
        ContentsError::NoMemory => Unserved::NoMemory,
        ContentsError::Fault => unreachable!(),
    }
}
