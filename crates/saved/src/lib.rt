// The saved form of a state, and a state read back from bytes. docs/SAVED-FORM.md has the layout.
#![tactic(auto)]

ghost use Rattle.std.specs.Prelude.{◌≡◌};
ghost use Rattle.saved.specs.Saved.{FormOf};
ghost use Rattle.saved.specs.Restored.{no_state, restored_of, restores, state_after};

use crate::layout::{
    HASHES_AT, LENGTH_COUNT, LENGTHS_AT, LETTER_B, LETTER_L, LETTER_P, LETTER_R, MARK_BYTES,
    PROGRESS_AT, REFUSAL_AT, SIZES_AT, WORD_BYTES,
};
use crate::read::{is_saved, read_state};
use crate::write::{put_hashes, put_numbers};
use state::refusals::Reason;
use state::stashes::Table;
use state::{Lengths, Refusal, State};

mod layout;
mod read;
mod write;

// Bytes of a saved form.
pub const SAVED_BYTES: usize = LENGTHS_AT + MARK_BYTES + WORD_BYTES * LENGTH_COUNT;

// The saved form of a state goes over the bytes that are lent.
pub fn save_in_place(to: &mut [u8; SAVED_BYTES], state: &State)
    ensures { FormOf to.new state.now }
{
    let progress = [
        state.table.count,
        state.line,
        state.at,
        state.into,
        state.total,
        state.ready,
        state.stretches,
    ];
    let refusal = [state.refusal.number, state.refusal.line, state.refusal.byte];
    let lengths = [
        state.lengths.list,
        state.lengths.image,
        state.lengths.stash,
        state.lengths.work,
        state.lengths.result,
        state.lengths.patch,
    ];
    put_hashes(to, HASHES_AT, &state.table.hashes);
    put_numbers(to, SIZES_AT, LETTER_B, &state.table.sizes);
    put_numbers(to, PROGRESS_AT, LETTER_P, &progress);
    put_numbers(to, REFUSAL_AT, LETTER_R, &refusal);
    put_numbers(to, LENGTHS_AT, LETTER_L, &lengths);
}

// The saved form of a state, by value.
pub fn save(state: &State) -> [u8; SAVED_BYTES]
    ensures { FormOf result state.now }
{
    let mut to = [0; SAVED_BYTES];
    save_in_place(&mut to, state);
    to
}

// The state whose saved form the bytes are goes over the one that is lent; or 20, and this one stays.
#[inline(always)]
#[tactic(auto, using(crate::proofs::ReadLaws::saved_length), unfolding(crate::specs::Restored::restored_of))]
pub fn restore_in_place(bytes: &[u8], state: &mut State) -> Result<(), Reason>
    ensures value { result ≡ restores bytes.now }
    ensures state_after { state.new ≡ state_after state.old bytes.now }
{
    if !is_saved(bytes) {
        return Err(Reason::NoSavedForm);
    }
    read_state(bytes, state);
    Ok(())
}

// A state to read another one over. Inlined with what reads over it, as its zeros are then never written, which took 80 of 280 ns of a form read
// and written.
#[inline(always)]
pub fn no_state() -> State
    ensures { result ≡ no_state }
{
    State {
        table: Table::new(),
        line: 0,
        at: 0,
        into: 0,
        total: 0,
        ready: 0,
        stretches: 0,
        refusal: Refusal {
            number: 0,
            line: 0,
            byte: 0,
        },
        lengths: Lengths {
            list: 0,
            image: 0,
            stash: 0,
            work: 0,
            result: 0,
            patch: 0,
        },
    }
}

// The state whose saved form the bytes are, or 20.
pub fn restore(bytes: &[u8]) -> Result<State, Reason>
    ensures { result ≡ restored_of bytes.now }
{
    let mut state = no_state();
    restore_in_place(bytes, &mut state)?;
    Ok(state)
}
