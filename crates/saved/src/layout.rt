// Where the records of a saved form start, each with its mark, "S" and a letter of its own.
use state::limits::{MOST_STASHES, TABLE_BYTES};

pub(crate) const MARK_BYTES: usize = 2;

pub(crate) const LETTER_S: u8 = b'S';

pub(crate) const LETTER_H: u8 = b'H';

pub(crate) const LETTER_B: u8 = b'B';

pub(crate) const LETTER_P: u8 = b'P';

pub(crate) const LETTER_R: u8 = b'R';

pub(crate) const LETTER_L: u8 = b'L';

// Bytes of a number, the lowest first.
pub(crate) const WORD_BYTES: usize = 8;

pub(crate) const PROGRESS_COUNT: usize = 7;

pub(crate) const REFUSAL_COUNT: usize = 3;

pub(crate) const LENGTH_COUNT: usize = 6;

pub(crate) const HASHES_AT: usize = 0;

pub(crate) const SIZES_AT: usize = HASHES_AT + MARK_BYTES + TABLE_BYTES;

pub(crate) const PROGRESS_AT: usize = SIZES_AT + MARK_BYTES + WORD_BYTES * MOST_STASHES;

pub(crate) const REFUSAL_AT: usize = PROGRESS_AT + MARK_BYTES + WORD_BYTES * PROGRESS_COUNT;

pub(crate) const LENGTHS_AT: usize = REFUSAL_AT + MARK_BYTES + WORD_BYTES * REFUSAL_COUNT;
