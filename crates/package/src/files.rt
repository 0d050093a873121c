// Files by name. A path is bytes here, and text to std, which opens no other.
use std::fs;
use std::fs::OpenOptions;
use std::io::{Error, ErrorKind, Result};
use std::rt::Files;
use std::str::from_utf8;

fn text_of(path: &[u8]) -> Result<&str> {
    from_utf8(path).map_err(|_| Error::from(ErrorKind::InvalidFilename))
}

pub(crate) fn open_read<R: Files>(rt: &R, path: &[u8]) -> Result<R::File> {
    fs::open(rt, text_of(path)?)
}

// For reading and writing; its bytes stay.
pub(crate) fn open_update<R: Files>(rt: &R, path: &[u8]) -> Result<R::File> {
    let text = text_of(path)?;
    OpenOptions::new().read(true).write(true).open(rt, text)
}

// A new file, for writing; one of that name that is there is an error.
pub(crate) fn create<R: Files>(rt: &R, path: &[u8]) -> Result<R::File> {
    let text = text_of(path)?;
    OpenOptions::new()
        .write(true)
        .create_new(true)
        .open(rt, text)
}

pub(crate) fn remove(rt: &impl Files, path: &[u8]) -> Result<()> {
    fs::remove_file(rt, text_of(path)?)
}

pub(crate) fn rename(rt: &impl Files, from: &[u8], to: &[u8]) -> Result<()> {
    fs::rename(rt, text_of(from)?, text_of(to)?)
}
