// What a run keeps between calls.
#![tactic(auto)]

use crate::stashes::Table;

pub mod limits;
pub mod refusals;
pub mod stashes;
pub mod stretches;
pub mod sums;

// A refusal's number, line, and the byte of the text at which the line is wrong, 0 where none is reported; number 0 is no refusal. A state holds
// whatever numbers its saved form has, so this is a number and no reason.
#[derive(Clone, Copy)]
pub struct Refusal {
    pub number: usize,
    pub line: usize,
    pub byte: usize,
}

// The lengths in bytes of the list, the image, the three areas and the patch data.
#[derive(Clone, Copy, PartialEq, Eq)]
pub struct Lengths {
    pub list: usize,
    pub image: usize,
    pub stash: usize,
    pub work: usize,
    pub result: usize,
    pub patch: usize,
}

// The table of the stashes held. The current line's number and where it starts in the text. The bytes into a `new`. The bytes taken since the
// opening, modulo 2^64. Whether the work area, for a `bsdiff` the result area, is ready to be written: 0 says no, every other number yes, since a
// saved form may have any. The stretches that a `free` has moved. The refusal, if any. The lengths at opening.
#[derive(Clone, Copy)]
pub struct State {
    pub table: Table,
    pub line: usize,
    pub at: usize,
    pub into: usize,
    pub total: usize,
    pub ready: usize,
    pub stretches: usize,
    pub refusal: Refusal,
    pub lengths: Lengths,
}
