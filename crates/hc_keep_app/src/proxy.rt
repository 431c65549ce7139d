//! The proxy: what its words ask for, over the files and the sockets of the system.
ghost use Rattle.std.specs.Prelude.{◌≡◌, ◌+◌, []};
ghost use Rattle.hc_core.specs.Steps.{StandsFor, bytes_received, steps};
ghost use Rattle.hc_model.specs.Entries.{no_contents};

use crate::ending::{Ending, ended_as, unrecovered};
use crate::nowhere::Nowhere;
use crate::say::{
    Start, say_help, say_no_memory, say_start, say_unbound, say_unrecovered, say_used_up, say_wrong,
};
use crate::serving::{Serving, Unserved, Watcher, serve_kept};
use crate::words::{Asked, Plan, asked_in};
use hc_contents::Contents;
use hc_core::Cache;
use hc_disk::{Locked, StdFolder, lock};
use hc_proxy::serve_from;
use hc_sockets::MioWire;
use hc_store::Memory;
use hc_wire::{Wire, WireError};
use std::fs::File;
use std::time::Instant;

/// Does what the words say.
pub(crate) fn run(rt: HostRuntime, words: &[String]) -> Ending {
    match asked_in(words) {
        Ok(Asked::Help) => {
            let _told = say_help(&rt);
            Ending::Done
        }
        Ok(Asked::Proxy(plan)) => match plan.store {
            Some(store) => keep(rt, plan, store),
            None => pass(rt, plan),
        },
        Err(wrong) => {
            let _told = say_wrong(&rt, wrong);
            Ending::Usage
        }
    }
}

/// Runs a proxy whose store is in memory alone.
fn pass(rt: HostRuntime, plan: Plan<'_>) -> Ending {
    let alloc = rt.alloc();
    let Ok(mine) = rt.clone() else {
        return Ending::NoMemory;
    };
    let store = Memory::new(alloc, plan.limits);
    match Cache::new(store, plan.limits, alloc) {
        Ok(cache) => pass_on(rt, plan, mine, cache),
        Err(_) => Ending::NoMemory,
    }
}

/// The same over an empty cache.
fn pass_on(rt: HostRuntime, plan: Plan<'_>, net: HostRuntime, cache: Cache<Memory>) -> Ending
    requires new { StandsFor cache no_contents [] }
    requires unused { steps cache + bytes_received cache ≡ 0 }
{
    let mut wire = MioWire::with_patience(net, plan.patience);
    match wire.bind(Some(plan.listen), Some(plan.origin)) {
        Ok(()) => {
            let _told = say_start(&rt, plan, Start::empty());
            ended_as(serve_from(
                rt.alloc(),
                cache,
                0,
                true,
                &mut wire,
                &mut Nowhere,
                plan.turns,
            ))
        }
        Err(WireError::WireFailed) => {
            let _told = say_unbound(&rt, plan.listen);
            Ending::WireFailed
        }
        Err(WireError::NoMemory) => Ending::NoMemory,
    }
}

/// Runs a proxy whose store is kept in a folder.
fn keep(rt: HostRuntime, plan: Plan<'_>, store: &str) -> Ending {
    let Some(_lock) = locked(&rt, store) else {
        return Ending::FolderFailed;
    };
    let Ok(files) = rt.clone() else {
        return Ending::NoMemory;
    };
    let Ok(net) = rt.clone() else {
        return Ending::NoMemory;
    };
    let Ok(path) = String::from_str(rt.alloc(), store) else {
        return Ending::NoMemory;
    };
    let began = Instant::now(&rt).ok();
    let mut teller = Teller {
        rt: &rt,
        plan,
        began,
    };
    let serving = Serving {
        limits: plan.limits,
        listen: plan.listen,
        origin: plan.origin,
        turns: plan.turns,
    };
    let folder = StdFolder::new(files, path);
    let mut wire = MioWire::with_patience(net, plan.patience);
    match serve_kept(rt.alloc(), serving, folder, &mut wire, &mut teller) {
        Ok(served) => ended_as(served.ended),
        Err(refused) => unserved(&rt, plan, store, refused.why),
    }
}

/// The lock of the folder. Where there is none, it is told why.
fn locked(rt: &HostRuntime, store: &str) -> Option<File> {
    match lock(rt, store) {
        Ok(Locked::Mine(file)) => Some(file),
        Ok(Locked::Taken) => {
            let _told = eprintln!(rt; "vosdrieng: another proxy has {store}");
            None
        }
        Err(e) => {
            let _told = eprintln!(rt; "vosdrieng: {store}/lock can't be made: {e}");
            None
        }
    }
}

/// How it ends where nothing is served, which is told.
fn unserved(rt: &HostRuntime, plan: Plan<'_>, store: &str, why: Unserved) -> Ending {
    match why {
        Unserved::Unrecovered(why) => {
            let _told = say_unrecovered(rt, store, why);
            unrecovered(why)
        }
        Unserved::UsedUp => {
            let _told = say_used_up(rt, store);
            Ending::Refused
        }
        Unserved::Unbound => {
            let _told = say_unbound(rt, plan.listen);
            Ending::WireFailed
        }
        Unserved::NoMemory => {
            let _told = say_no_memory(rt, store);
            Ending::NoMemory
        }
    }
}

/// Tells on standard error what a store has before it is served.
#[derive(Drop)]
struct Teller<'a> {
    rt: &'a HostRuntime,
    plan: Plan<'a>,
    /// When it was begun to recover it.
    began: Option<Instant>,
}

impl Watcher for Teller<'_> {
    fn begins(&mut self, contents: &Contents) {
        let start = Start::new(contents, millis_since(self.rt, self.began));
        let _told = say_start(self.rt, self.plan, start);
    }
}

/// How many milliseconds have passed.
fn millis_since(rt: &HostRuntime, began: Option<Instant>) -> Option<u128> {
    let began = began?;
    let took = began.elapsed(rt).ok()?;
    Some(took.as_millis())
}
