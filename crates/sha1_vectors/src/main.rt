// Prints the SHA-1 digests of the messages that standard input describes: for each a label and the digest in hexadecimal. A line of input
// is one of these; any other, as a comment, is passed over:
//   case LABEL             prints the label
//   start                  starts anew, with no message and nothing taken in
//   +TEXT, repeat N +TEXT  bytes of the message
//   pattern N              another message: N of the made-up bytes of `records`
//   digest                 prints the digest of the message
//   absorb N LENGTH        takes in the next N pieces of the message, each of LENGTH bytes
//   finish                 prints the digest of what is taken in
#![tactic(auto)]

use records::buffers::{Buffer, fill_pattern, part};
use records::fields::{field, number, rest};
use records::streams::{Hex, INPUT_ROOM, read_input, say};
use sha1_digest::Hasher;

const MESSAGE_ROOM: usize = 1000000;

// The message, how much of it is taken in, and the hasher that took it.
#[derive(Drop)]
struct Vector<'a> {
    message: Buffer<'a>,
    taken: usize,
    hasher: Hasher,
}

impl Vector<'_> {
    fn start(&mut self) {
        self.message.clear();
        self.taken = 0;
        self.hasher = sha1_digest::start();
    }

    fn pattern(&mut self, n: usize) {
        self.message.set_length(n);
        fill_pattern(self.message.bytes_mut());
    }

    fn absorb(&mut self, n: usize, length: usize) {
        for _ in 0..n {
            let piece = part(self.message.bytes(), self.taken, length);
            self.hasher = sha1_digest::absorb(self.hasher, piece);
            self.taken = self.taken.saturating_add(piece.len());
        }
    }
}

fn show(out: &impl Print, digest: [u8; 20]) {
    let _ = println!(out; "{}", Hex(&digest));
}

// What a line of input does.
fn step(out: &impl Print, line: &[u8], v: &mut Vector<'_>) {
    match field(line, 0) {
        b"case" => {
            say(out, rest(line, 1));
            say(out, b" ");
        }
        b"start" => v.start(),
        b"pattern" => v.pattern(number(line, 1)),
        b"digest" => show(out, sha1_digest::digest(v.message.bytes())),
        b"absorb" => v.absorb(number(line, 1), number(line, 2)),
        b"finish" => show(out, sha1_digest::finish(v.hasher)),
        _ => v.message.put(line),
    }
}

fn main(rt: HostRuntime) {
    let mut text = [0u8; INPUT_ROOM];
    let mut message = [0u8; MESSAGE_ROOM];
    let mut v = Vector {
        message: Buffer::new(&mut message),
        taken: 0,
        hasher: sha1_digest::start(),
    };
    for line in read_input(&rt, &mut text).split_inclusive(|b| *b == b'\n') {
        if let Some(line) = line.strip_suffix(b"\n") {
            step(&rt, line, &mut v);
        }
    }
}
