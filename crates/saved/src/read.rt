// Bytes read as a saved form.
ghost use Rattle.std.specs.Prelude.{◌≡◌, ◌+◌, ◌*◌, ◌≤◌, length};
ghost use Rattle.saved.specs.Layout.{mark_bytes, word_bytes, saved_bytes};
ghost use Rattle.saved.specs.Restored.{has_mark, is_saved, numbers_at, number_in, refusal_in, lengths_in, state_in};

use crate::SAVED_BYTES;
use crate::layout::{
    HASHES_AT, LENGTHS_AT, LETTER_B, LETTER_H, LETTER_L, LETTER_P, LETTER_R, LETTER_S, MARK_BYTES,
    PROGRESS_AT, REFUSAL_AT, SIZES_AT, WORD_BYTES,
};
use little_endian::read_u64;
use state::{Lengths, Refusal, State};

#[tactic(auto, unfolding(crate::specs::Restored::has_mark))]
fn has_mark(bytes: &[u8], at: usize, letter: u8) -> bool
    requires { at + mark_bytes ≤ length bytes.now }
    ensures { result ≡ has_mark bytes.now at letter }
{
    bytes[at] == LETTER_S && bytes[at + 1] == letter
}

#[tactic(auto, unfolding(crate::specs::Restored::is_saved))]
pub(crate) fn is_saved(bytes: &[u8]) -> bool
    ensures { result ≡ is_saved bytes.now }
{
    bytes.len() == SAVED_BYTES
        && has_mark(bytes, HASHES_AT, LETTER_H)
        && has_mark(bytes, SIZES_AT, LETTER_B)
        && has_mark(bytes, PROGRESS_AT, LETTER_P)
        && has_mark(bytes, REFUSAL_AT, LETTER_R)
        && has_mark(bytes, LENGTHS_AT, LETTER_L)
}

// Number k of the record at a position.
fn number_in(bytes: &[u8], at: usize, k: usize) -> usize
    requires { at + mark_bytes + word_bytes * k ≤ saved_bytes }
    ensures { result ≡ number_in bytes.now at k }
{
    read_u64(bytes, at + MARK_BYTES + WORD_BYTES * k) as usize
}

// As many numbers as there is room for, from a position on.
#[tactic(auto, using(crate::proofs::ReadLaws::row_read), unfolding(crate::specs::Restored::numbers_at))]
fn read_numbers(to: &mut [usize], bytes: &[u8], at: usize)
    requires { at + word_bytes * length to.old ≤ length bytes.now }
    ensures { to.new ≡ numbers_at bytes.now at (length to.old) }
{
    for (i, x) in to.iter_mut().enumerate() {
        *x = read_u64(bytes, at + WORD_BYTES * i) as usize;
    }
}

fn refusal_in(bytes: &[u8]) -> Refusal
    ensures { result ≡ refusal_in bytes.now }
{
    Refusal {
        number: number_in(bytes, REFUSAL_AT, 0),
        line: number_in(bytes, REFUSAL_AT, 1),
        byte: number_in(bytes, REFUSAL_AT, 2),
    }
}

fn lengths_in(bytes: &[u8]) -> Lengths
    ensures { result ≡ lengths_in bytes.now }
{
    Lengths {
        list: number_in(bytes, LENGTHS_AT, 0),
        image: number_in(bytes, LENGTHS_AT, 1),
        stash: number_in(bytes, LENGTHS_AT, 2),
        work: number_in(bytes, LENGTHS_AT, 3),
        result: number_in(bytes, LENGTHS_AT, 4),
        patch: number_in(bytes, LENGTHS_AT, 5),
    }
}

// The state of bytes that are a saved form.
#[tactic(auto, unfolding(crate::specs::Restored::state_in))]
pub(crate) fn read_state(bytes: &[u8], state: &mut State)
    requires { length bytes.now ≡ saved_bytes }
    ensures { state.new ≡ state_in bytes.now }
{
    state
        .table
        .hashes
        .copy_from_slice(&bytes[HASHES_AT + MARK_BYTES..SIZES_AT]);
    read_numbers(&mut state.table.sizes, bytes, SIZES_AT + MARK_BYTES);
    state.table.count = number_in(bytes, PROGRESS_AT, 0);
    state.line = number_in(bytes, PROGRESS_AT, 1);
    state.at = number_in(bytes, PROGRESS_AT, 2);
    state.into = number_in(bytes, PROGRESS_AT, 3);
    state.total = number_in(bytes, PROGRESS_AT, 4);
    state.ready = number_in(bytes, PROGRESS_AT, 5);
    state.stretches = number_in(bytes, PROGRESS_AT, 6);
    state.refusal = refusal_in(bytes);
    state.lengths = lengths_in(bytes);
}
