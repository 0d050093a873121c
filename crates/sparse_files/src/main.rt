// Reads the sparse files that standard input describes over images, and prints for each what comes of it. Numbers are decimal. A line of
// input is one of these; any other, as a comment, is passed over:
//   case LABEL               a new file, over an image of 3 blocks
//   image BYTES              over an image of that length, in made-up bytes
//   header BLOCKS CHUNKS     a good header with these totals
//   raw BLOCKS               a raw chunk, with other made-up bytes
//   fill BLOCKS A B C D      a fill chunk of these four bytes
//   keep BLOCKS              a don't-care chunk
//   chunk TYPE BLOCKS BYTES  a chunk's header alone
//   bytes N VALUE            N bytes of that value
//   put2 AT VALUE            a number of two bytes in the place of what is there
//   put4 AT VALUE            the same of four bytes
//   cut N                    the file's first N bytes alone
//   load                     reads it: `loaded` and the SHA-1 of the image, or `refused`, the number, and whether the image was kept
//   check BYTES              the number for an image of that many bytes, which is not lent
//   every                    reads each part of the file from its start, and at last the whole: the numbers, and from which length on
#![tactic(auto)]

use records::buffers::{Buffer, fill_pattern, part};
use records::fields::{field, number, rest};
use records::streams::{Hex, INPUT_ROOM, read_input, say};
use state::limits::BLOCK_BYTES;
use state::refusals::Reason;

const FILE_ROOM: usize = 65536;

const IMAGE_ROOM: usize = 65536;

// A sparse file, and the bytes of the image that it is read over.
#[derive(Drop)]
struct Case<'a> {
    file: Buffer<'a>,
    image: Buffer<'a>,
}

// A number's lowest bytes, the lowest first.
fn low_bytes(n: usize) -> [u8; 8] {
    n.to_le_bytes()
}

impl Case<'_> {
    fn start(&mut self) {
        self.file.clear();
        self.image.set_length(3 * BLOCK_BYTES);
    }

    fn two(&mut self, n: usize) {
        self.file.append(&low_bytes(n)[..2]);
    }

    fn four(&mut self, n: usize) {
        self.file.append(&low_bytes(n)[..4]);
    }

    fn header(&mut self, blocks: usize, chunks: usize) {
        self.four(0xED26FF3A);
        self.four(1);
        self.two(28);
        self.two(12);
        self.four(4096);
        self.four(blocks);
        self.four(chunks);
        self.four(0);
    }

    fn chunk(&mut self, tag: usize, blocks: usize, bytes: usize) {
        self.four(tag);
        self.four(blocks);
        self.four(bytes);
    }

    // n bytes, each `step` more than the last one, modulo 256.
    fn bytes(&mut self, n: usize, first: u8, step: u8) {
        let mut value = first;
        for byte in self.file.more(n) {
            *byte = value;
            value = value.wrapping_add(step);
        }
    }

    fn raw(&mut self, blocks: usize) {
        let bytes = BLOCK_BYTES * blocks.min(FILE_ROOM);
        self.chunk(0xCAC1, blocks, 12 + bytes);
        self.bytes(bytes, 3, 5);
    }

    fn fill(&mut self, line: &[u8]) {
        self.chunk(0xCAC2, number(line, 1), 16);
        for k in 2..6 {
            self.file.append(&low_bytes(number(line, k))[..1]);
        }
    }

    // What a line adds to the file, or changes in it.
    fn put(&mut self, line: &[u8]) {
        let n = number(line, 1);
        let m = number(line, 2);
        match field(line, 0) {
            b"header" => self.header(n, m),
            b"raw" => self.raw(n),
            b"fill" => self.fill(line),
            b"keep" => self.chunk(0xCAC3, n, 12),
            b"chunk" => self.chunk(n, m, number(line, 3)),
            b"bytes" => self.bytes(n, low_bytes(m)[0], 0),
            b"put2" => self.file.put_over(n, &low_bytes(m)[..2]),
            b"put4" => self.file.put_over(n, &low_bytes(m)[..4]),
            b"cut" => self.file.set_length(n),
            _ => {}
        }
    }

    fn load(&mut self, out: &impl Print) {
        fill_pattern(self.image.bytes_mut());
        let before = sha1_digest::digest(self.image.bytes());
        let loaded = sparse::load(self.file.bytes(), self.image.bytes_mut());
        let after = sha1_digest::digest(self.image.bytes());
        let _ = match loaded {
            Ok(()) => println!(out; "loaded {}", Hex(&after)),
            Err(reason) => {
                let k = reason.number();
                let image = if before == after { "kept" } else { "changed" };
                println!(out; "refused {k} {image}")
            }
        };
    }

    // Each part of the file but the whole; a number is printed where it is another one than before.
    fn load_parts(&mut self, out: &impl Print) {
        let mut last = Ok(());
        let file = self.file.bytes();
        for n in 0..file.len() {
            let loaded = sparse::load(part(file, 0, n), self.image.bytes_mut());
            if loaded != last {
                let k = number_of(loaded);
                let _ = print!(out; "refused {k} from {n}, ");
                last = loaded;
            }
        }
    }

    fn every(&mut self, out: &impl Print) {
        fill_pattern(self.image.bytes_mut());
        let before = sha1_digest::digest(self.image.bytes());
        self.load_parts(out);
        if before != sha1_digest::digest(self.image.bytes()) {
            say(out, b"changed, ");
        }
        self.load(out);
    }
}

fn number_of(loaded: Result<(), Reason>) -> usize {
    match loaded {
        Ok(()) => 0,
        Err(reason) => reason.number(),
    }
}

fn check(out: &impl Print, file: &[u8], image: usize) {
    let _ = match sparse::check_load(file, image) {
        Ok(()) => println!(out; "good"),
        Err(reason) => {
            let k = reason.number();
            println!(out; "refused {k}")
        }
    };
}

// What a line of input does.
fn step(out: &impl Print, line: &[u8], case: &mut Case<'_>) {
    match field(line, 0) {
        b"case" => {
            say(out, rest(line, 1));
            say(out, b": ");
            case.start();
        }
        b"image" => case.image.set_length(number(line, 1)),
        b"load" => case.load(out),
        b"check" => check(out, case.file.bytes(), number(line, 1)),
        b"every" => case.every(out),
        _ => case.put(line),
    }
}

fn main(rt: HostRuntime) {
    let mut text = [0u8; INPUT_ROOM];
    let mut file = [0u8; FILE_ROOM];
    let mut image = [0u8; IMAGE_ROOM];
    let mut case = Case {
        file: Buffer::new(&mut file),
        image: Buffer::new(&mut image),
    };
    for line in read_input(&rt, &mut text).split_inclusive(|b| *b == b'\n') {
        if let Some(line) = line.strip_suffix(b"\n") {
            step(&rt, line, &mut case);
        }
    }
}
