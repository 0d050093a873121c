// Opens the lists that standard input describes, and prints for each whether it is accepted, or the number, the line and the byte of its
// refusal.
// A line of input is one of these; any other, as a comment, is passed over:
//   case LABEL                             a new list over an image of 8 blocks, areas of 3 and no patch data
//   areas IMAGE STASH WORK RESULT PATCH    other lengths, in bytes
//   |TEXT                                  a line of the list
//   +TEXT                                  bytes of the list, with no LF
//   repeat N |TEXT                         that, N times
//   open                                   opens it
#![tactic(auto)]

use records::buffers::Buffer;
use records::fields::{field, number, rest};
use records::streams::{INPUT_ROOM, read_input, say};
use state::Lengths;

// One byte more than a list may have.
const LIST_ROOM: usize = 4194305;

// What is opened: a list, over areas and patch data of these lengths.
#[derive(Drop)]
struct Case<'a> {
    list: Buffer<'a>,
    lengths: Lengths,
}

impl Case<'_> {
    fn start(&mut self) {
        self.list.clear();
        self.lengths = Lengths {
            list: 0,
            image: 32768,
            stash: 12288,
            work: 12288,
            result: 12288,
            patch: 0,
        };
    }

    fn open(&self, out: &impl Print) {
        let l = self.lengths;
        let opened = transfer_list::open(
            self.list.bytes(),
            l.image,
            l.stash,
            l.work,
            l.result,
            l.patch,
        );
        let refusal = opened.refusal;
        let _ = if refusal.number == 0 {
            println!(out; "accepted")
        } else {
            println!(out;
                "refused {} {} {}",
                refusal.number, refusal.line, refusal.byte
            )
        };
    }
}

// The five lengths of a line.
fn lengths_in(line: &[u8]) -> Lengths {
    Lengths {
        list: 0,
        image: number(line, 1),
        stash: number(line, 2),
        work: number(line, 3),
        result: number(line, 4),
        patch: number(line, 5),
    }
}

// What a line of input does.
fn step(out: &impl Print, line: &[u8], case: &mut Case<'_>) {
    match field(line, 0) {
        b"case" => {
            say(out, rest(line, 1));
            say(out, b": ");
            case.start();
        }
        b"areas" => case.lengths = lengths_in(line),
        b"open" => case.open(out),
        _ => case.list.put(line),
    }
}

fn main(rt: HostRuntime) {
    let mut text = [0u8; INPUT_ROOM];
    let mut list = [0u8; LIST_ROOM];
    let mut case = Case {
        list: Buffer::new(&mut list),
        lengths: lengths_in(b""),
    };
    for line in read_input(&rt, &mut text).split_inclusive(|b| *b == b'\n') {
        if let Some(line) = line.strip_suffix(b"\n") {
            step(&rt, line, &mut case);
        }
    }
}
