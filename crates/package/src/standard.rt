// Standard output and standard error.
use crate::files::open_update;
use crate::messages::{Told, tell};
use std::fs::File;
use std::os::fd::{AsRawFd, IntoRawFd, RawFd};
use std::rt::Files;

const STANDARD_ERROR: RawFd = 2;

// A file that is opened gets the lowest number that is free. Where standard output or error is closed, that would be theirs, and what is
// printed would go into the file: so their numbers are taken first, and stay taken.
pub(crate) fn hold_standard<R: Files<File = File> + Eprint>(rt: &R) -> Result<(), Told> {
    let path = b"/dev/null";
    for _ in 0..3 {
        let file = open_update(rt, path).map_err(|error| tell(rt, path, &error))?;
        if STANDARD_ERROR < file.as_raw_fd() {
            break;
        }
        let _ = file.into_raw_fd();
    }
    Ok(())
}
