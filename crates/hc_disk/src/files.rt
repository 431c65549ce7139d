//! What is asked of the file system.
use hc_folder::ImageFound;
use hc_text::read_plain;
use std::fs::{File, OpenFile, OpenOptions};
use std::io::{ErrorKind, Seek, SeekFrom, Write};
use std::rt::Files;
use std::{fs, io};

/// The bytes of a file, if it is there.
pub(crate) fn read_file<R: Files + AllocGlobal>(
    rt: &R,
    path: &str,
    name: &str,
) -> io::Result<Option<Vec<u8>>> {
    let name = format!(in rt.alloc(); "{path}/{name}")?;
    match fs::read(rt, name.as_str()) {
        Ok(bytes) => Ok(Some(bytes)),
        Err(e) if e.kind() == ErrorKind::NotFound => Ok(None),
        Err(e) => Err(e),
    }
}

/// The name of a record's file.
pub(crate) fn record_name<R: AllocGlobal>(rt: &R, number: u64) -> io::Result<String> {
    Ok(format!(in rt.alloc(); "record.{number}")?)
}

/// The numbers of the records that are there.
fn record_numbers<R: Files + AllocGlobal + Clone + Drop>(
    rt: &R,
    path: &str,
) -> io::Result<Vec<u64>> {
    let mut numbers = Vec::new(rt.alloc());
    for entry in fs::read_dir(rt, path)? {
        let entry = entry?;
        if let Some(digits) = entry.file_name().strip_prefix("record.") {
            if let Some(number) = read_plain(digits.as_bytes()) {
                numbers.push(number)?;
            }
        }
    }
    Ok(numbers)
}

/// The file of the image, and the number of the newest record.
pub(crate) fn find_image<R: Files + AllocGlobal + Clone + Drop>(
    rt: &R,
    path: &str,
) -> io::Result<ImageFound> {
    let file = read_file(rt, path, "image")?;
    let mut newest = 0;
    for number in record_numbers(rt, path)? {
        newest = number.max(newest);
    }
    Ok(ImageFound { file, newest })
}

/// Makes what was renamed, made or removed in a folder last.
fn sync_folder<R: Files>(rt: &R, path: &str) -> io::Result<()> {
    File::open(rt, path)?.sync_all()
}

/// Puts an image in the place of the one that is there.
pub(crate) fn put_image<R: Files + AllocGlobal>(
    rt: &R,
    path: &str,
    bytes: &[u8],
) -> io::Result<()> {
    let new = format!(in rt.alloc(); "{path}/image.new")?;
    let name = format!(in rt.alloc(); "{path}/image")?;
    let written = write_new(rt, new.as_str(), bytes);
    if let Err(e) = written {
        // Its room may be what a record needs.
        let _removed = fs::remove_file(rt, new.as_str());
        return Err(e);
    }
    fs::rename(rt, new.as_str(), name.as_str())?;
    sync_folder(rt, path)
}

/// Writes a file anew, so that it lasts.
fn write_new<R: Files>(rt: &R, name: &str, bytes: &[u8]) -> io::Result<()> {
    let mut file = File::create(rt, name)?;
    file.write_all(bytes)?;
    file.sync_all()
}

/// Removes the records with lower numbers.
pub(crate) fn remove_below<R: Files + AllocGlobal + Clone + Drop>(
    rt: &R,
    path: &str,
    number: u64,
) -> io::Result<()> {
    for record in record_numbers(rt, path)? {
        if record < number {
            let name = format!(in rt.alloc(); "{path}/record.{record}")?;
            fs::remove_file(rt, name.as_str())?;
        }
    }
    sync_folder(rt, path)
}

/// Opens a record for writing, and makes it where it isn't there.
pub(crate) fn open_record<R: Files + AllocGlobal>(
    rt: &R,
    path: &str,
    number: u64,
) -> io::Result<R::File> {
    let name = format!(in rt.alloc(); "{path}/record.{number}")?;
    let file = OpenOptions::new()
        .write(true)
        .create(true)
        .open(rt, name.as_str())?;
    sync_folder(rt, path)?;
    Ok(file)
}

/// Puts bytes behind the first `at` of a file, in the place of all others.
pub(crate) fn write_behind<F: OpenFile + Seek + Write>(
    file: &mut F,
    at: u64,
    bytes: &[u8],
) -> io::Result<()> {
    file.set_len(at)?;
    file.seek(SeekFrom::Start(at))?;
    file.write_all(bytes)
}
