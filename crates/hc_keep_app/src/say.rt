//! What is told on standard error, and the help.
use crate::words::{Plan, Wrong};
use hc_contents::{Contents, RunList, Unfit};
use hc_folder::FilesError;
use hc_keeping::KeepError;
use hc_saving::RecoverError;
use hc_wire::Address;
use std::io;

/// What a start tells.
#[derive(Clone, Copy)]
pub(crate) struct Start {
    /// How many bodies there are.
    bodies: usize,
    /// How many bytes they have.
    bytes: u64,
    /// In how many milliseconds they were recovered, where they were.
    took: Option<u128>,
}

impl Start {
    /// One of an empty store that isn't kept.
    pub(crate) fn empty() -> Start {
        Start {
            bodies: 0,
            bytes: 0,
            took: None,
        }
    }

    /// A start with these contents.
    pub(crate) fn new(contents: &Contents, took: Option<u128>) -> Start {
        let items = contents.items.as_slice();
        let mut bytes = 0u64;
        for item in items.iter() {
            bytes = bytes.saturating_add(bytes_in(&item.runs));
        }
        Start {
            bodies: items.len(),
            bytes,
            took,
        }
    }
}

/// How many bytes the runs have.
fn bytes_in(runs: &RunList) -> u64 {
    let mut bytes = 0u64;
    for run in runs.as_slice().iter() {
        bytes = bytes.saturating_add(run.bytes.len() as u64);
    }
    bytes
}

/// Where it listens, before which origin, and what it has.
pub(crate) fn say_start(rt: &HostRuntime, plan: Plan<'_>, start: Start) -> io::Result<()> {
    let (l, o) = (plan.listen.octets, plan.origin.octets);
    eprint!(rt;
        "vosdrieng: {}.{}.{}.{}:{} before {}.{}.{}.{}:{}",
        l[0], l[1], l[2], l[3], plan.listen.port, o[0], o[1], o[2], o[3], plan.origin.port
    )?;
    let (bodies, bytes) = (start.bodies, start.bytes);
    match (plan.store, start.took) {
        (Some(store), Some(took)) => eprintln!(rt;
            ": {store} has {bodies} bodies of {bytes} bytes, recovered in {took} ms"
        ),
        (Some(store), None) => eprintln!(rt; ": {store} has {bodies} bodies of {bytes} bytes"),
        (None, _) => eprintln!(rt; ": no store is kept"),
    }
}

/// That nothing listens.
pub(crate) fn say_unbound(rt: &HostRuntime, listen: Address) -> io::Result<()> {
    let l = listen.octets;
    eprintln!(rt;
        "vosdrieng: {}.{}.{}.{}:{} can't be listened at: it is taken, or of another machine",
        l[0], l[1], l[2], l[3], listen.port
    )
}

/// That what the folder keeps has no numbers left.
pub(crate) fn say_used_up(rt: &HostRuntime, store: &str) -> io::Result<()> {
    eprintln!(rt; "vosdrieng: {store} is refused: its numbers are used up")
}

/// That memory wants.
pub(crate) fn say_no_memory(rt: &HostRuntime, store: &str) -> io::Result<()> {
    eprintln!(rt; "vosdrieng: there is not enough memory for {store}")
}

/// What the words mean.
pub(crate) fn say_help(rt: &HostRuntime) -> io::Result<()> {
    println!(rt; "usage: proxy LISTEN ORIGIN STORE [OPTION NUMBER]..")?;
    println!(rt; "  LISTEN     where clients connect: an address and a port, as 127.0.0.1:8080")?;
    println!(rt; "  ORIGIN     the origin: an address and a port")?;
    println!(rt; "  STORE      the folder of the store, made where it isn't there; - for none")?;
    println!(rt; "  --body     how long a body is that is stored, at most, in bytes: 16777216")?;
    println!(rt; "  --store    how much the store holds, at most, in bytes: 268435456")?;
    println!(rt; "  --idle     how long a client may stay that asks for nothing, in seconds: 300")?;
    println!(rt; "  --head     how long a client may take to end a head, in seconds: 30")?;
    println!(rt; "  --origin   how long the origin may send nothing, in seconds: 120")?;
    println!(rt; "  --clients  how many clients there are at once; the idlest makes way: 512")?;
    println!(rt; "  --turns    after how many turns it ends, an idle one takes 50 ms: no end")
}

/// What is wrong with the words.
pub(crate) fn say_wrong(rt: &HostRuntime, wrong: Wrong<'_>) -> io::Result<()> {
    match wrong {
        Wrong::Word(word, what) => eprintln!(rt; "vosdrieng: proxy: '{word}' is {what}"),
        Wrong::Missing(name) => eprintln!(rt; "vosdrieng: proxy lacks {name}"),
        Wrong::Bare(option) => eprintln!(rt; "vosdrieng: proxy: {option} lacks its number"),
    }
}

/// Why nothing is recovered of the folder. What the folder can't do it told itself.
pub(crate) fn say_unrecovered(rt: &HostRuntime, store: &str, why: KeepError) -> io::Result<()> {
    match why {
        KeepError::Files(why) => say_unread(rt, store, why),
        KeepError::Refused { number, why } => say_refused(rt, store, number, why),
    }
}

/// Why the files say nothing.
fn say_unread(rt: &HostRuntime, store: &str, why: FilesError) -> io::Result<()> {
    match why {
        FilesError::BrokenImage => {
            eprintln!(rt; "vosdrieng: {store}/image is refused: it was changed, or cut")
        }
        FilesError::LostImage { number } => {
            eprintln!(rt; "vosdrieng: {store}/record.{number} is refused: its image is missing")
        }
        FilesError::BrokenRecord { number, at } => eprintln!(rt;
            "vosdrieng: {store}/record.{number} is refused: it was changed behind byte {at}"
        ),
        FilesError::FolderFailed => Ok(()),
        FilesError::NoMemory => say_no_memory(rt, store),
    }
}

/// Why the image or the record is refused.
fn say_refused(rt: &HostRuntime, store: &str, number: u64, why: RecoverError) -> io::Result<()> {
    match why {
        RecoverError::BadImage => {
            eprintln!(rt; "vosdrieng: {store}/image is refused: it has no image")
        }
        RecoverError::Unfit(Unfit::BadContent { i }) => {
            eprintln!(rt; "vosdrieng: {store}/image is refused: item {i} fits no such store")
        }
        RecoverError::Unfit(Unfit::Full) => {
            eprintln!(rt; "vosdrieng: {store}/image is refused: it has more than --store allows")
        }
        RecoverError::BadRecord(refused) => {
            let line = refused.line;
            eprintln!(rt; "vosdrieng: {store}/record.{number} is refused: line {line} of its text")
        }
        RecoverError::SourceFailed => Ok(()),
        RecoverError::NoMemory => say_no_memory(rt, store),
    }
}
