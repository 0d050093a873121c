// Messages on standard error.
use std::io::{Cursor, Error, Write};
use std::str::from_utf8;

// No error's text is longer.
const TEXT_ROOM: usize = 256;

// The words of an error that is printed at the start of zeros, without the system's number for it, which stands in brackets behind them.
fn words_of(bytes: &[u8]) -> &str {
    let Ok(text) = from_utf8(bytes) else {
        return "";
    };
    match text.split_once(" (os error ") {
        Some((words, _)) => words,
        None => text.trim_end_matches('\0'),
    }
}

// A failure that is told: there is nothing more to say of it.
#[derive(Clone, Copy, Debug)]
pub(crate) struct Told;

// Writes a line: the path, a colon and what is wrong with it.
pub(crate) fn tell(rt: &impl Eprint, path: &[u8], error: &Error) -> Told {
    let mut printed = Cursor::new([0u8; TEXT_ROOM]);
    let _ = write!(printed, "{error}");
    let bytes = printed.into_inner();
    let words = words_of(&bytes);
    let _ = match from_utf8(path) {
        Ok(path) => eprintln!(rt; "{path}: {words}"),
        Err(_) => {
            let path = path.escape_ascii();
            eprintln!(rt; "{path}: {words}")
        }
    };
    Told
}
