// The input that describes cases, and what is printed of them.
ghost use Rattle.std.specs.Prelude.{◌≤◌, length};

use std::fmt;
use std::io::Read;

// The most bytes of input that are read.
pub const INPUT_ROOM: usize = 65536;

// Reads until the buffer is full, the input ends or a read fails, and answers how many bytes that came to.
pub fn read_full(input: &mut impl Read, buf: &mut [u8]) -> usize
    ensures { result ≤ length buf.new }
{
    let mut n = 0;
    while n < buf.len() {
        match input.read(&mut buf[n..]) {
            Ok(0) | Err(_) => return n,
            Ok(more) => n += more,
        }
    }
    n
}

// Standard input, as much of it as there is room for.
pub fn read_input<'a>(rt: &impl Input, room: &'a mut [u8; INPUT_ROOM]) -> &'a [u8]
    ensures { length result.now ≤ 65536 }
{
    let n = read_full(&mut rt.reader(), room);
    &room[..n]
}

// What cannot be printed is missing where the output is compared, and is told nowhere else.
pub fn say(out: &impl Print, bytes: &[u8]) {
    let _ = out.write_all(bytes);
}

// Bytes that are printed as hexadecimal digits.
#[derive(Clone, Copy)]
pub struct Hex<'a>(pub &'a [u8]);

impl fmt::Display for Hex<'_> {
    fn fmt<W: fmt::Write>(&self, f: &mut fmt::Formatter<W>) -> fmt::Result {
        for byte in self.0 {
            write!(f, "{byte:02x}")?;
        }
        Ok(())
    }
}
