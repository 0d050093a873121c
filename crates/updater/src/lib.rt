// Running an opened list over a lent image.
#![tactic(auto)]

ghost use Rattle.std.specs.Prelude.{◌≡◌, ◌^◌, ◌<◌};
ghost use Rattle.ranges.specs.Ranges.{least_blocks};
ghost use Rattle.updater.specs.Areas.{areas_of};
ghost use Rattle.updater.specs.Calls.{outcome_of, called_with, result_of, call_of};
ghost use Rattle.updater.specs.Steps.{config_of};
ghost use Rattle.updater.specs.Fits.{Typed};
ghost use Rattle.updater.specs.declared.Outcome.TheVariants as outcome;

use crate::run::run_lines;
use possible::{is_possible, terms_for};
use state::refusals::{Reason, Refused};
use state::{Lengths, Refusal, State};

mod areas;
mod bsdiff;
mod commands;
mod digest;
mod new_data;
mod run;
mod sets;
mod source;

// Done, more new data wanted, stopped for saving, or refused.
#[derive(Clone, Copy)]
pub enum Outcome {
    Done,
    More,
    Stop,
    Refused(Refusal),
}

// What a call gives back: how it came out, and the bytes of the piece that it took.
#[derive(Clone, Copy)]
pub struct Called {
    pub outcome: Outcome,
    pub taken: usize,
}

impl Called {
    // Refused before the first byte.
    fn refused(refusal: Refusal) -> Called
        ensures outcome { result.outcome ≡ outcome.Refused refusal }
        ensures taken { result.taken ≡ 0 }
    {
        Called {
            outcome: Outcome::Refused(refusal),
            taken: 0,
        }
    }
}

// What a run says that did not stop for saving and was left in this state.
#[tactic(auto, unfolding(crate::specs::Calls::outcome_at))]
fn outcome_of(list: &[u8], state: &State) -> Outcome
    ensures { result ≡ outcome_of list.now state.now }
{
    if state.refusal.number != 0 {
        return Outcome::Refused(state.refusal);
    }
    if list.len() <= state.at {
        return Outcome::Done;
    }
    Outcome::More
}

// A number of 64 bits.
fn fits(n: usize)
    ensures { n < 2 ^ 64 }
{}

// For proofs alone: what the type of a state says of it. As slices the tables have lengths that are known.
pub fn typed(state: &State)
    ensures { Typed state.now }
{
    let hashes = &state.table.hashes[..];
    let sizes = &state.table.sizes[..];
    fits(state.total);
}

// One call: runs the lines of the list from the state on, with one piece of new data. The state is left as the run left it.
pub fn call(
    list: &[u8],
    image: &mut [u8],
    stash: &mut [u8],
    work: &mut [u8],
    res: &mut [u8],
    patch: &[u8],
    piece: &[u8],
    state: &mut State,
) -> Called
    ensures { result_of (areas_of image.new stash.new work.new res.new patch.now) (called_with state.new result) ≡ call_of least_blocks list.now piece.now (config_of (areas_of image.old stash.old work.old res.old patch.now) state.old) }
{
    let held = state.refusal;
    if held.number != 0 {
        return Called::refused(held);
    }
    let lengths = Lengths {
        list: list.len(),
        image: image.len(),
        stash: stash.len(),
        work: work.len(),
        result: res.len(),
        patch: patch.len(),
    };
    if !is_possible(list, lengths, &*state) {
        let refused = Refused {
            reason: Reason::StateImpossible,
            line: 0,
            byte: 0,
        };
        return Called::refused(refused.refusal());
    }
    typed(&*state);
    let terms = terms_for(list, lengths);
    let ran = run_lines(list, image, stash, work, res, patch, piece, terms, state);
    let outcome = if ran.stop {
        Outcome::Stop
    } else {
        outcome_of(list, &*state)
    };
    Called {
        outcome,
        taken: ran.taken,
    }
}
