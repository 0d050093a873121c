// Bytes put together in a lent room.
ghost use Rattle.std.specs.Prelude.{◌≡◌, ◌≤◌, length};

use crate::fields::{field, number, rest};

// At most n bytes of a text from a position on.
pub fn part(s: &[u8], from: usize, n: usize) -> &[u8]
    ensures { length result.now ≤ n }
{
    let from = from.min(s.len());
    let end = from.saturating_add(n).min(s.len());
    &s[from..end]
}

// The bytes go in at a position, as far as there is room; the answer is the position past them. A position past the room stays.
pub fn append(buf: &mut [u8], at: usize, bytes: &[u8]) -> usize
    ensures { at ≤ length buf.old → result ≤ length buf.new }
{
    if buf.len() <= at {
        return at;
    }
    let n = bytes.len().min(buf.len() - at);
    buf[at..at + n].copy_from_slice(&bytes[..n]);
    at + n
}

fn put_once(buf: &mut [u8], at: usize, line: &[u8]) -> usize {
    match line.split_first() {
        Some((b'|', text)) => {
            let next = append(buf, at, text);
            append(buf, next, b"\n")
        }
        Some((b'+', text)) => append(buf, at, text),
        _ => at,
    }
}

// Puts the text of a line into a buffer at a position, and answers the position past it. `|TEXT` stands for TEXT and an LF, `+TEXT` for
// TEXT alone, `repeat N LINE` for LINE N times, and any other line for nothing.
pub fn put(buf: &mut [u8], at: usize, line: &[u8]) -> usize {
    match field(line, 0) {
        b"repeat" => {
            let again = rest(line, 2);
            let mut next = at;
            for _ in 0..number(line, 1) {
                next = put_once(buf, next, again);
            }
            next
        }
        _ => put_once(buf, at, line),
    }
}

// Fills a buffer with bytes that repeat at no distance a test uses: each is 7 more than the last one, modulo 256, and after every 256
// of them 1 more.
pub fn fill_pattern(buf: &mut [u8]) {
    let mut x: u8 = 1;
    let mut turn: u8 = 0;
    for byte in buf {
        *byte = x;
        x = x.wrapping_add(7);
        turn = turn.wrapping_add(1);
        if turn == 0 {
            x = x.wrapping_add(1);
        }
    }
}

// A lent room and a length, which lines of input give: the bytes are the room's first ones, all of them where the length is larger.
// What the room held before stays in it past the length.
#[derive(Drop)]
pub struct Buffer<'a> {
    room: &'a mut [u8],
    length: usize,
}

impl<'a> Buffer<'a> {
    pub fn new<const N: usize>(room: &'a mut [u8; N]) -> Buffer<'a>
        ensures { result.length ≡ 0 }
    {
        Buffer { room, length: 0 }
    }

    pub fn bytes(&self) -> &[u8]
        ensures { length result.now ≤ self.now.length }
    {
        part(self.room, 0, self.length)
    }

    pub fn bytes_mut(&mut self) -> &mut [u8] {
        let n = self.length.min(self.room.len());
        let room = &mut *self.room;
        &mut room[..n]
    }

    pub fn clear(&mut self)
        ensures { self.new.length ≡ 0 }
    {
        self.length = 0;
    }

    pub fn set_length(&mut self, n: usize)
        ensures { self.new.length ≡ n }
    {
        self.length = n;
    }

    pub fn append(&mut self, bytes: &[u8]) {
        self.length = append(self.room, self.length, bytes);
    }

    // What a line stands for, behind the bytes.
    pub fn put(&mut self, line: &[u8]) {
        self.length = put(self.room, self.length, line);
    }

    // Bytes in the place of those at a position of the room, as far as there is room. The length stays.
    pub fn put_over(&mut self, at: usize, bytes: &[u8])
        ensures { self.new.length ≡ self.old.length }
    {
        append(self.room, at, bytes);
    }

    // The next n bytes behind the others, as far as there is room, which count from now on.
    pub fn more(&mut self, n: usize) -> &mut [u8] {
        let from = self.length.min(self.room.len());
        let end = from.saturating_add(n).min(self.room.len());
        self.length = self.length.max(end);
        let room = &mut *self.room;
        &mut room[from..end]
    }
}
