//! The lock of a store's folder.
use std::fs::{File, OpenOptions, TryLockError};
use std::io::ErrorKind;
use std::rt::Files;
use std::{fs, io};

/// What came of locking a folder.
#[derive(Drop)]
pub enum Locked {
    /// It is locked as long as this is kept.
    Mine(File),
    /// Another process has it.
    Taken,
}

/// Locks the folder at a path, and makes it where it isn't there. It is free again once its process
/// ends, however that comes.
pub fn lock<R: Files<File = File> + AllocGlobal>(rt: &R, path: &str) -> io::Result<Locked> {
    match fs::create_dir(rt, path) {
        Ok(()) => {}
        Err(e) if e.kind() == ErrorKind::AlreadyExists => {}
        Err(e) => return Err(e),
    }
    let name = format!(in rt.alloc(); "{path}/lock")?;
    let file = OpenOptions::new()
        .write(true)
        .create(true)
        .open(rt, name.as_str())?;
    match file.try_lock() {
        Ok(()) => Ok(Locked::Mine(file)),
        Err(TryLockError::WouldBlock) => Ok(Locked::Taken),
        Err(TryLockError::Error(e)) => Err(e),
    }
}
