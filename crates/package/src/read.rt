// Reading files. An absent file is empty; one that is there and cannot be read is told on standard error.
ghost use Rattle.std.specs.Prelude.{◌≤◌, length, IfOk};

use crate::files::open_read;
use crate::messages::{Told, tell};
use std::io;
use std::io::{ErrorKind, Read};
use std::rt::Files;

// What a call that opens a file answered; an absent file is none.
pub(crate) fn check_opened<F: Drop>(
    rt: &impl Eprint,
    opened: io::Result<F>,
    path: &[u8],
) -> Result<Option<F>, Told> {
    match opened {
        Ok(file) => Ok(Some(file)),
        Err(error) => {
            if error.kind() == ErrorKind::NotFound {
                Ok(None)
            } else {
                Err(tell(rt, path, &error))
            }
        }
    }
}

// Fills the buffer as far as the file goes, and answers how far that is.
pub(crate) fn fill<F: Read>(
    rt: &impl Eprint,
    file: &mut Option<F>,
    path: &[u8],
    buf: &mut [u8],
) -> Result<usize, Told>
    ensures { IfOk result (λ n. n ≤ length buf.new) }
{
    let Some(file) = file else {
        return Ok(0);
    };
    let mut n = 0;
    while n < buf.len() {
        match file.read(&mut buf[n..]) {
            Ok(0) => break,
            Ok(more) => n += more,
            Err(error) => return Err(tell(rt, path, &error)),
        }
    }
    Ok(n)
}

// The bytes of a file, as many as the buffer has room for.
pub(crate) fn read_file<'a, R: Files + Eprint>(
    rt: &R,
    path: &[u8],
    buf: &'a mut [u8],
) -> Result<&'a [u8], Told>
    ensures { IfOk result (λ bytes. length bytes.now ≤ length buf.old) }
{
    let mut file = check_opened(rt, open_read(rt, path), path)?;
    let n = fill(rt, &mut file, path, buf)?;
    Ok(&buf[..n])
}
