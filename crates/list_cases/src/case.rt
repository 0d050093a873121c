// A case: the list and the areas that it lends, and the state that its calls leave.
use crate::areas::{fill_area, fill_blocks};
use crate::patches::{put_bytes, put_record};
use crate::say::report;
use crate::states::{hold_one, lengths_in, refusal_in, set};
use records::buffers::{Buffer, part};
use records::fields::{field, number};
use sequence::run_pieces;
use state::State;
use transfer_list::open;
use updater::{Called, Outcome, call};

const MOST_CUTS: usize = 8;

// The cuts of a `run`, as many as there is room for.
fn cuts_in<'a>(line: &[u8], cuts: &'a mut [usize; MOST_CUTS]) -> &'a [usize] {
    let n = (2..2 + MOST_CUTS)
        .take_while(|k| !field(line, *k).is_empty())
        .count();
    for (cut, k) in cuts.iter_mut().zip(2..2 + MOST_CUTS) {
        *cut = number(line, k);
    }
    &cuts[..n.min(MOST_CUTS)]
}

#[derive(Drop)]
pub(crate) struct Case<'a> {
    pub(crate) list: Buffer<'a>,
    pub(crate) image: Buffer<'a>,
    pub(crate) stash: Buffer<'a>,
    pub(crate) work: Buffer<'a>,
    pub(crate) result: Buffer<'a>,
    pub(crate) patch: Buffer<'a>,
    pub(crate) state: State,
}

impl Case<'_> {
    // What a case starts with.
    pub(crate) fn start(&mut self) {
        self.list.clear();
        self.patch.clear();
        fill_blocks(&mut self.image, b"ABCDEFGH");
        fill_blocks(&mut self.stash, b"000");
        fill_blocks(&mut self.work, b"000");
        fill_blocks(&mut self.result, b"000");
    }

    // What a line of input lends, or how it alters the state.
    pub(crate) fn lend(&mut self, line: &[u8]) {
        match field(line, 0) {
            b"list" => self.list.clear(),
            b"image" => fill_area(&mut self.image, line),
            b"stash" => fill_area(&mut self.stash, line),
            b"work" => fill_area(&mut self.work, line),
            b"result" => fill_area(&mut self.result, line),
            b"patch" => self.patch.set_length(number(line, 1)),
            b"record" => put_record(&mut self.patch, line),
            b"bytes" => put_bytes(&mut self.patch, line),
            b"set" => set(&mut self.state, field(line, 1), number(line, 2)),
            b"hold" => hold_one(&mut self.state, line),
            b"refusal" => self.state.refusal = refusal_in(line),
            b"lengths" => self.state.lengths = lengths_in(line),
            _ => self.list.put(line),
        }
    }

    pub(crate) fn open(&mut self) {
        self.state = open(
            self.list.bytes(),
            self.image.bytes().len(),
            self.stash.bytes().len(),
            self.work.bytes().len(),
            self.result.bytes().len(),
            self.patch.bytes().len(),
        );
    }

    fn call(&mut self, piece: &[u8]) -> Called {
        call(
            self.list.bytes(),
            self.image.bytes_mut(),
            self.stash.bytes_mut(),
            self.work.bytes_mut(),
            self.result.bytes_mut(),
            self.patch.bytes(),
            piece,
            &mut self.state,
        )
    }

    fn report(&self, out: &impl Print, called: Called) {
        report(
            out,
            called,
            self.image.bytes(),
            self.stash.bytes(),
            self.work.bytes(),
            self.result.bytes(),
        );
    }

    // Calls until the run does not stop, or so many times. What is reported as taken is the sum.
    pub(crate) fn calls(&mut self, out: &impl Print, piece: &[u8], most: usize) {
        let mut all = Called {
            outcome: Outcome::Stop,
            taken: 0,
        };
        for _ in 0..most {
            if !matches!(all.outcome, Outcome::Stop) {
                break;
            }
            let called = self.call(part(piece, all.taken, piece.len()));
            all = Called {
                outcome: called.outcome,
                taken: all.taken.wrapping_add(called.taken),
            };
        }
        self.report(out, all);
    }

    // An opening and its calls over these bytes, cut as the line says.
    pub(crate) fn run(&mut self, out: &impl Print, line: &[u8], bytes: &[u8]) {
        let mut cuts = [0; MOST_CUTS];
        let finished = run_pieces(
            self.list.bytes(),
            self.image.bytes_mut(),
            self.stash.bytes_mut(),
            self.work.bytes_mut(),
            self.result.bytes_mut(),
            self.patch.bytes(),
            bytes,
            cuts_in(line, &mut cuts),
        );
        self.state = finished.state;
        self.report(out, finished.called);
    }
}
