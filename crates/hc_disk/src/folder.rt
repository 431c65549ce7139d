//! A store's folder over std's files.
ghost use Rattle.std.specs.Prelude.{◌≡◌};
ghost use Rattle.hc_io.specs.Faults.{HasRisen};
ghost use Rattle.hc_folder.specs.Causes.{HasFolderCause};

use crate::files::{
    find_image, open_record, put_image, read_file, record_name, remove_below, write_behind,
};
use hc_folder::{Folder, FolderError, ImageFound};
use std::io;
use std::io::{ErrorKind, Write};
use std::rt::{Clock, Files};
use std::time::Instant;

/// A record that is read has so many bytes, at most.
const MOST: usize = 1 << 60;

/// For so many milliseconds no write is tried after one that failed, at least.
const REST: u128 = 1_000;

/// For so many times as long as it took no write is tried after one that failed.
const TIMES: u128 = 20;

/// A record that is open for writing.
#[derive(Drop)]
struct OpenRecord<F> {
    number: u64,
    file: F,
    /// Its length, where its last write was whole.
    end: Option<u64>,
}

/// The files of a store below a path: `image`, and `record.N` for each record. It tells on standard
/// error what it can't do, and once only until it can again. It tells no files.
#[derive(Drop)]
pub struct StdFolder<R: Files + Clock + Eprint + AllocGlobal + Clone + Drop> {
    rt: R,
    path: String,
    opened: Option<OpenRecord<R::File>>,
    faults: u64,
    /// The last write that failed, if none was whole since.
    failed: Option<Failure>,
}

/// A write that failed.
#[derive(Drop)]
struct Failure {
    /// When it ended.
    since: Instant,
    /// For how many milliseconds none is tried.
    rest: u128,
}

impl<R: Files + Clock + Eprint + AllocGlobal + Clone + Drop> StdFolder<R> {
    /// The folder at this path, which is there.
    pub fn new(rt: R, path: String) -> Self
        ensures { result.faults ≡ 0 }
    {
        StdFolder {
            rt,
            path,
            opened: None,
            faults: 0,
            failed: None,
        }
    }

    /// Counts a fault.
    fn fail(&mut self) -> FolderError
        ensures error { result ≡ FolderError.Failed }
        ensures rose { HasRisen self.old.faults self.new.faults }
    {
        self.faults = self.faults.saturating_add(1);
        FolderError::Failed
    }

    /// What came of a read. A fault is counted, and told.
    fn read_as<T>(&mut self, what: &str, read: io::Result<T>) -> Result<T, FolderError>
        ensures cause { HasFolderCause self.old.faults self.new.faults result }
    {
        match read {
            Ok(found) => Ok(found),
            Err(e) if e.kind() == ErrorKind::OutOfMemory => Err(FolderError::NoMemory),
            Err(e) => {
                let _told = eprintln!(self.rt;
                    "vosdrieng: {}: {what} can't be read: {e}",
                    self.path
                );
                Err(self.fail())
            }
        }
    }

    /// What came of a write that began then. A fault is counted, and told once until a write is whole
    /// again.
    fn written_as(
        &mut self,
        what: &str,
        began: io::Result<Instant>,
        written: io::Result<()>,
    ) -> Result<(), FolderError>
        ensures cause { HasFolderCause self.old.faults self.new.faults result }
    {
        match written {
            Ok(()) => {
                self.recover(what);
                Ok(())
            }
            Err(e) if e.kind() == ErrorKind::OutOfMemory => Err(FolderError::NoMemory),
            Err(e) => {
                if self.failed.is_none() {
                    let _told = eprintln!(self.rt;
                        "vosdrieng: {}: {what} can't be written, and is tried again: {e}",
                        self.path
                    );
                }
                self.failed = failure_since(&self.rt, began);
                Err(self.fail())
            }
        }
    }

    /// A write was whole. Where one failed before, that is told.
    fn recover(&mut self, what: &str)
        ensures { self.new.faults ≡ self.old.faults }
    {
        if self.failed.is_some() {
            self.failed = None;
            let _told = eprintln!(self.rt; "vosdrieng: {}: {what} is written again", self.path);
        }
    }

    /// Whether a write failed just now, so that none is tried yet.
    fn rests(&self) -> bool {
        let Some(failed) = &self.failed else {
            return false;
        };
        match failed.since.elapsed(&self.rt) {
            Ok(passed) => passed.as_millis() < failed.rest,
            Err(_) => false,
        }
    }

    /// Opens a record for writing, where it isn't open.
    fn open_at(&mut self, number: u64) -> io::Result<()>
        ensures { self.new.faults ≡ self.old.faults }
    {
        let is_open = match &self.opened {
            Some(opened) => opened.number == number,
            None => false,
        };
        if !is_open {
            let file = open_record(&self.rt, self.path.as_str(), number)?;
            self.opened = Some(OpenRecord {
                number,
                file,
                end: None,
            });
        }
        Ok(())
    }

    /// Puts bytes into a record. Where it ends there, they are written at once.
    fn put(&mut self, number: u64, at: u64, bytes: &[u8]) -> io::Result<()>
        ensures { self.new.faults ≡ self.old.faults }
    {
        self.open_at(number)?;
        let Some(opened) = &mut self.opened else {
            return Err(io::Error::from(ErrorKind::NotFound));
        };
        let ends_there = opened.end == Some(at);
        opened.end = None;
        if ends_there {
            opened.file.write_all(bytes)?;
        } else {
            write_behind(&mut opened.file, at, bytes)?;
        }
        opened.end = at.checked_add(bytes.len() as u64);
        Ok(())
    }
}

/// What is known of a write that failed now and began then, where the clock tells that.
fn failure_since<R: Clock>(rt: &R, began: io::Result<Instant>) -> Option<Failure> {
    let began = began.ok()?;
    let took = began.elapsed(rt).ok()?;
    let since = Instant::now(rt).ok()?;
    Some(Failure {
        since,
        rest: took.as_millis().saturating_mul(TIMES).max(REST),
    })
}

impl<R: Files + Clock + Eprint + AllocGlobal + Clone + Drop> Folder for StdFolder<R> {
    ghost use Rattle.std.specs.Prelude.{None};

    ghost faults = { λ s. s.faults };

    ghost files = { λ _. None };

    fn find_image(&mut self) -> Result<ImageFound, FolderError> {
        let found = find_image(&self.rt, self.path.as_str());
        self.read_as("image", found)
    }

    fn read_record(&mut self, number: u64) -> Result<Vec<u8>, FolderError> {
        let read = match record_name(&self.rt, number) {
            Ok(name) => read_file(&self.rt, self.path.as_str(), name.as_str()),
            Err(e) => Err(e),
        };
        let bytes = match self.read_as("the record", read)? {
            Some(bytes) => bytes,
            None => Vec::new(self.rt.alloc()),
        };
        if bytes.len() > MOST {
            return Err(self.fail());
        }
        Ok(bytes)
    }

    fn put_image(&mut self, file: &[u8]) -> Result<(), FolderError> {
        if self.rests() {
            return Err(self.fail());
        }
        let began = Instant::now(&self.rt);
        let put = put_image(&self.rt, self.path.as_str(), file);
        self.written_as("image", began, put)
    }

    fn remove_below(&mut self, number: u64) -> Result<(), FolderError> {
        if self.rests() {
            return Err(self.fail());
        }
        let began = Instant::now(&self.rt);
        let removed = remove_below(&self.rt, self.path.as_str(), number);
        self.written_as("the folder", began, removed)
    }

    fn put_record(&mut self, number: u64, at: u64, bytes: &[u8]) -> Result<(), FolderError> {
        if self.rests() {
            return Err(self.fail());
        }
        let began = Instant::now(&self.rt);
        let put = self.put(number, at, bytes);
        self.written_as("the record", began, put)
    }
}
