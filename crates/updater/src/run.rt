// The lines of a list, run until the next byte of new data is needed, the list is finished, something is refused, or the run stops for saving.
ghost use Rattle.std.specs.Prelude.{◌≡◌, ℕ, ◌+◌, ◌^◌, ◌<◌, length};
ghost use Rattle.ranges.specs.Ranges.{least_blocks};
ghost use Rattle.command.specs.Faults.{fault_byte};
ghost use Rattle.command.specs.declared.Command.TheVariants.{Bad};
ghost use Rattle.updater.specs.Areas.{areas_of};
ghost use Rattle.updater.specs.Steps.{config_of, passed, refused_with, further_into, state_after, stops_after, step_at, after};
ghost use Rattle.updater.specs.Run.{reached, run_of};
ghost use Rattle.updater.specs.Fits.{Fits};

use crate::commands::{StepEnd, run_step};
use crate::new_data::take_new;
use command::faults::fault_of;
use command::targets::new_target;
use command::{Command, Line};
use marks::MARK_BYTES;
use rules::held::hold_after;
use rules::{Terms, check_line};
use state::limits::BLOCK_BYTES;
use state::{Refusal, State};
use std::num::wrapping_add_usize;
use text::line::line_at;

// The bytes that a run took, and whether it stopped for saving.
#[derive(Clone, Copy)]
pub(crate) struct Ran {
    pub taken: usize,
    pub stop: bool,
}

// The byte of the text at which a line that starts at `at` is ill formed, 0 for none.
fn fault_byte(at: usize, command: Command) -> usize
    requires { (p : ℕ) → command ≡ Bad p → at + p < 2 ^ 64 }
    ensures { result ≡ fault_byte at command }
{
    match fault_of(command) {
        Some(p) => at + p,
        None => 0,
    }
}

// Refused at the current line, with the byte that is reported, 0 for none.
#[tactic(auto, unfolding(crate::specs::Steps::refused_with))]
fn refuse(state: &mut State, number: usize, byte: usize)
    ensures { state.new ≡ refused_with state.old number byte }
{
    state.refusal = Refusal {
        number,
        line: state.line,
        byte,
    };
}

// n more bytes into a `new`, and taken in all.
#[tactic(auto, unfolding(crate::specs::Steps::further_into))]
fn take_bytes(state: &mut State, n: usize)
    requires { state.old.into + n < 2 ^ 64 }
    ensures { state.new ≡ further_into state.old n }
{
    state.into += n;
    state.total = wrapping_add_usize(state.total, n);
}

// Past a line of n bytes.
#[tactic(auto, unfolding(crate::specs::Steps::passed))]
fn pass(state: &mut State, n: usize)
    requires { (state.old.at + n < 2 ^ 64) × (state.old.line + 1 < 2 ^ 64) }
    ensures { state.new ≡ passed state.old n }
{
    state.line += 1;
    state.at += n;
    state.into = 0;
    state.ready = 0;
    state.stretches = 0;
}

impl StepEnd {
    // A stop for saving follows.
    #[tactic(auto, unfolding(crate::specs::Steps::stops_after))]
    fn stops(self) -> bool
        ensures { result ≡ stops_after self }
    {
        matches!(self, StepEnd::Ended | StepEnd::Filled | StepEnd::Stretched)
    }
}

// What a step of the line l leaves of the state, by how it ended.
#[tactic(auto, unfolding(crate::specs::Steps::state_after, crate::specs::Steps::marked_with))]
fn after_step(l: &[u8], line: Line, state: &mut State, end: StepEnd)
    requires { (state.old.at + length l.now < 2 ^ 64) × (state.old.line + 1 < 2 ^ 64) × (state.old.stretches + 1 < 2 ^ 64) }
    ensures { state.new ≡ state_after l.now line.hash line.command state.old end }
{
    match end {
        StepEnd::Passed | StepEnd::Ended => {
            hold_after(&mut state.table, line);
            pass(state, l.len());
        }
        StepEnd::Filled => state.ready = 1,
        StepEnd::Stretched => state.stretches += 1,
        StepEnd::Refused(number) => refuse(state, number, 0),
    }
}

// Runs from the state on, and leaves it where the run ended.
pub(crate) fn run_lines(
    list: &[u8],
    image: &mut [u8],
    stash: &mut [u8],
    work: &mut [u8],
    res: &mut [u8],
    patch: &[u8],
    piece: &[u8],
    terms: Terms,
    state: &mut State,
) -> Ran
    requires fits { Fits list.now terms (config_of (areas_of image.old stash.old work.old res.old patch.now) state.old) }
    requires unrefused { state.old.refusal.number ≡ 0 }
    ensures { reached (config_of (areas_of image.new stash.new work.new res.new patch.now) state.new) result.taken result.stop ≡ run_of least_blocks list.now terms piece.now (config_of (areas_of image.old stash.old work.old res.old patch.now) state.old) }
{
    let mut marks = [0u8; MARK_BYTES];
    let mut taken = 0;
    while state.at < list.len() {
        let l = line_at(list, state.at);
        let checked = check_line(l, terms, &state.table, &mut marks);
        let line = checked.line;
        if let Err(reason) = checked.refusal {
            let byte = fault_byte(state.at, line.command);
            refuse(state, reason.number(), byte);
            break;
        }
        match new_target(line.command) {
            Some(set) => {
                let next = take_new(image, l, set.at, piece, taken, state.into);
                take_bytes(state, next - taken);
                taken = next;
                if state.into / BLOCK_BYTES < set.blocks {
                    break;
                }
                pass(state, l.len());
            }
            None => {
                let end = run_step(image, stash, work, res, patch, l, line, &*state);
                after_step(l, line, state, end);
                if end.stops() {
                    return Ran { taken, stop: true };
                }
                if state.refusal.number != 0 {
                    break;
                }
            }
        }
    }
    Ran { taken, stop: false }
}
