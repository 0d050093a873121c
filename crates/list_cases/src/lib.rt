// Runs the lists that standard input describes, and prints what calls leave: the outcome, the bytes taken, the image, the stash area, the
// work area and the result area. An area is printed as a letter for each block that is filled with it, 0 for zeros, and for any other
// block the first digits of its SHA-1 in brackets. A line of input is one of these; any other, as a comment, is passed over:
//   case LABEL                         a new list, an image ABCDEFGH, every area 000, no patch data
//   image LETTERS [BYTES]              another image, a letter for a block, or only the first BYTES of it; so too `stash`, `work`, `result`
//   record ADD EXTRA SEEK              more patch data: a record's mark and its control triple, each number as its 64 bits
//   bytes N BYTE                       the same: one byte N times
//   patch N                            only its first N bytes
//   list                               starts the list anew, with nothing
//   |TEXT, +TEXT, repeat N |TEXT       a line of the list; bytes with no LF; a line N times
//   open                               opens the list over the areas: the state
//   set at|line|into|count|total|ready|stretches N   alters the state
//   refusal NUMBER LINE [BYTE]         the same
//   lengths LIST IMAGE STASH WORK RESULT PATCH   the same
//   hold HASH BLOCKS                   the same: one stash more
//   call FROM N                        a call with N bytes of the new data; after a stop another with the bytes not taken, until it does not stop
//   step FROM N                        one call, and of the state after it the line, the total, the ready mark and the stretches
//   run N CUT ..                       an opening and the calls over the first N bytes of the new data, cut into pieces
//   save                               saves the state and reads it back: the number, and the state goes on from what was read
//   damage                             the saved form with one bit of each byte altered in turn, a byte short, and a byte too long: how many are
//                                      refused, how many are the saved form of the state that is read, and how many are neither
// The new data is the made-up bytes of `records`.
#![tactic(auto)]

use crate::case::Case;
use crate::say::say_state;
use records::buffers::{Buffer, fill_pattern, part};
use records::fields::{field, number, rest};
use records::streams::{INPUT_ROOM, read_input, say};
use transfer_list::open;

mod areas;
mod case;
mod patches;
mod saves;
mod say;
mod states;

// One byte more than a list may have.
const LIST_ROOM: usize = 4194305;

const AREA_ROOM: usize = 65536;

const DATA_ROOM: usize = 65536;

// More calls than any list of the cases stops.
const MOST_CALLS: usize = 65536;

// What a line of input does.
fn step(out: &impl Print, line: &[u8], data: &[u8], case: &mut Case<'_>) {
    match field(line, 0) {
        b"case" => {
            say(out, rest(line, 1));
            say(out, b"\n");
            case.start();
        }
        b"open" => case.open(),
        b"call" => case.calls(out, piece_in(line, data), MOST_CALLS),
        b"step" => {
            case.calls(out, piece_in(line, data), 1);
            say_state(out, &case.state);
        }
        b"run" => case.run(out, line, part(data, 0, number(line, 1))),
        b"save" => saves::save_and_restore(out, &mut case.state),
        b"damage" => saves::damage(out, &case.state),
        _ => case.lend(line),
    }
}

// The new data that a `call` or a `step` names.
fn piece_in<'a>(line: &[u8], data: &'a [u8]) -> &'a [u8] {
    part(data, number(line, 1), number(line, 2))
}

// Reads standard input and runs it.
pub fn run_cases<R: Input + Print>(rt: &R) {
    let mut text = [0u8; INPUT_ROOM];
    let mut list = [0u8; LIST_ROOM];
    let mut image = [0u8; AREA_ROOM];
    let mut stash = [0u8; AREA_ROOM];
    let mut work = [0u8; AREA_ROOM];
    let mut result = [0u8; AREA_ROOM];
    let mut patch = [0u8; AREA_ROOM];
    let mut data = [0u8; DATA_ROOM];
    fill_pattern(&mut data);
    // Nothing is lent, and the state is that of an empty list.
    let mut case = Case {
        list: Buffer::new(&mut list),
        image: Buffer::new(&mut image),
        stash: Buffer::new(&mut stash),
        work: Buffer::new(&mut work),
        result: Buffer::new(&mut result),
        patch: Buffer::new(&mut patch),
        state: open(b"", 0, 0, 0, 0, 0),
    };
    for line in read_input(rt, &mut text).split_inclusive(|b| *b == b'\n') {
        if let Some(line) = line.strip_suffix(b"\n") {
            step(rt, line, &data, &mut case);
        }
    }
}
