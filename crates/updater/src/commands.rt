// What each step of a command does to the lent areas.
ghost use Rattle.std.specs.Prelude.{◌≡◌, ℕ, ◌+◌, ◌*◌, ◌^◌, ◌<◌, ◌≤◌, true, List, length, ◌==◌};
ghost use Rattle.text.specs.Choice.{pick, either};
ghost use Rattle.state.specs.Limits.{block_bytes};
ghost use Rattle.state.specs.Refusals.{none, checked_number};
ghost use Rattle.state.specs.Stashes.{held, held_in, find_in};
ghost use Rattle.state.specs.Stretches.{is_stretch};
ghost use Rattle.command.specs.declared.Command.TheVariants.{Move, Stash};
ghost use Rattle.possible.specs.Possible.{found_stretch, frees_on};
ghost use Rattle.updater.specs.Areas.{areas_of};
ghost use Rattle.updater.specs.Effect.{effect_of, move_filled, stash_filled};
ghost use Rattle.updater.specs.Runnable.{Keeps, InImage, MoveRuns, StashRuns, Runnable};
ghost use Rattle.updater.specs.Steps.{stepped, fill_step, free_step, step_of};
ghost use Rattle.updater.specs.declared.commands.StepEnd.TheVariants.{Passed, Ended, Filled, Stretched, Refused};

use crate::areas::copy_over;
use crate::bsdiff::step_bsdiff;
use crate::digest::{check_hash, set_has_hash};
use crate::sets::{supply, write_set, zero_set};
use crate::source::put_together;
use command::source::Source;
use command::{Command, Line};
use ranges::RangeSet;
use state::State;
use state::limits::{BLOCK_BYTES, HASH_BYTES, MOST_STASHES};
use state::refusals::Reason;
use state::stashes::Table;
use state::stretches::{is_stretch, stretch_blocks};

// How a step ends: the line is passed, and the run goes on; it is passed, and the run stops for saving; the area is filled and ready to be
// written, or a stretch is moved and more are to come, and the run stops; or the line is refused. It holds the refusal's number, and no reason,
// since the model's steps speak of numbers.
#[derive(Clone, Copy)]
pub enum StepEnd {
    Passed,
    Ended,
    Filled,
    Stretched,
    Refused(usize),
}

// How a step that fills an area ends.
pub(crate) fn fill_end(filled: Result<(), Reason>) -> StepEnd
    ensures { result ≡ pick (checked_number filled == none) Filled (Refused (checked_number filled)) }
{
    match filled {
        Ok(()) => StepEnd::Filled,
        Err(reason) => StepEnd::Refused(reason.number()),
    }
}

// The source of a `move` goes into the work area.
#[tactic(auto, unfolding(crate::specs::Effect::move_filled))]
fn fill_move(
    image: &[u8],
    stash: &[u8],
    work: &mut [u8],
    l: &[u8],
    table: &Table,
    target: RangeSet,
    n: usize,
    source: Source,
    hash: [u8; HASH_BYTES],
) -> Result<(), Reason>
    requires keeps { Keeps (held_in table.now) stash.now }
    requires runs { MoveRuns l.now (held_in table.now) image.now work.old target n source }
    ensures { (res patch : List ℕ) → effect_of (areas_of image.now stash.now work.new res patch) (checked_number result)
        ≡ move_filled l.now (held_in table.now) hash n source
        (areas_of image.now stash.now work.old res patch) }
{
    put_together(image, stash, work, l, table, source);
    check_hash(&*work, n, hash)
}

// `move`: what is ready is written, whatever the target holds; a target that already has the hash is left as it is, and so is the work area;
// else the work area is filled.
#[tactic(auto, unfolding(crate::specs::Steps::fill_step, crate::specs::Effect::filled, crate::specs::Effect::is_finished, crate::specs::Effect::written_from))]
fn step_move(
    image: &mut [u8],
    stash: &[u8],
    work: &mut [u8],
    l: &[u8],
    table: &Table,
    target: RangeSet,
    n: usize,
    source: Source,
    hash: [u8; HASH_BYTES],
    ready: usize,
) -> StepEnd
    requires keeps { Keeps (held_in table.now) stash.now }
    requires runs { MoveRuns l.now (held_in table.now) image.old work.old target n source }
    ensures { (res patch : List ℕ) → stepped (areas_of image.new stash.now work.new res patch) result
        ≡ fill_step l.now (held_in table.now) hash (Move target n source) ready
        (areas_of image.old stash.now work.old res patch) }
{
    if ready != 0 {
        let end = BLOCK_BYTES * n;
        write_set(image, l, target.at, &work[..end]);
        return StepEnd::Ended;
    }
    if set_has_hash(&*image, l, target.at, hash) {
        return StepEnd::Ended;
    }
    fill_end(fill_move(&*image, stash, work, l, table, target, n, source, hash))
}

// S goes into the work area.
#[tactic(auto, unfolding(crate::specs::Effect::stash_filled))]
fn fill_stash(
    image: &[u8],
    stash: &[u8],
    work: &mut [u8],
    l: &[u8],
    set: RangeSet,
    hash: [u8; HASH_BYTES],
) -> Result<(), Reason>
    requires { InImage l.now image.now set × (block_bytes * set.blocks ≤ length work.old) }
    ensures { (res patch : List ℕ) → effect_of (areas_of image.now stash.now work.new res patch) (checked_number result)
        ≡ stash_filled l.now hash set
        (areas_of image.now stash.now work.old res patch) }
{
    supply(image, stash, work, l, set);
    check_hash(&*work, set.blocks, hash)
}

// `stash`: what is ready goes after the last stash; else the work area is filled.
#[tactic(auto, unfolding(crate::specs::Steps::fill_step, crate::specs::Effect::filled, crate::specs::Effect::is_finished, crate::specs::Effect::written_from))]
fn step_stash(
    image: &[u8],
    stash: &mut [u8],
    work: &mut [u8],
    l: &[u8],
    table: &Table,
    set: RangeSet,
    hash: [u8; HASH_BYTES],
    ready: usize,
) -> StepEnd
    requires { StashRuns l.now (held_in table.now) image.now stash.old work.old set }
    ensures { (res patch : List ℕ) → stepped (areas_of image.now stash.new work.new res patch) result
        ≡ fill_step l.now (held_in table.now) hash (Stash set) ready
        (areas_of image.now stash.old work.old res patch) }
{
    if ready != 0 {
        let start = BLOCK_BYTES * table.blocks_before(MOST_STASHES);
        let end = BLOCK_BYTES * set.blocks;
        copy_over(stash, start, &work[..end]);
        return StepEnd::Ended;
    }
    fill_end(fill_stash(image, &*stash, work, l, set, hash))
}

// How stretch k ends, over a gap below the younger stashes: more of them come, or it was the last, or there was nothing to move.
fn stretch_end(gap: usize, younger: usize, k: usize) -> StepEnd
    requires { k + 1 < 2 ^ 64 }
    ensures { result ≡ pick (is_stretch gap younger (k + 1)) Stretched (pick (is_stretch gap younger k) Ended Passed) }
{
    if is_stretch(gap, younger, k + 1) {
        return StepEnd::Stretched;
    }
    if is_stretch(gap, younger, k) {
        return StepEnd::Ended;
    }
    StepEnd::Passed
}

// `free`: stretch k of the younger stashes moves down by the gap.
#[tactic(auto, unfolding(crate::specs::Steps::free_step))]
fn step_free(stash: &mut [u8], table: &Table, hash: [u8; HASH_BYTES], k: usize) -> StepEnd
    requires keeps { Keeps (held_in table.now) stash.old }
    requires may_stretch { either (k == 0) (found_stretch (held_in table.now) k (find_in (held_in table.now) hash)) ≡ true }
    ensures { (image work res patch : List ℕ) → stepped (areas_of image stash.new work res patch) result
        ≡ free_step (held_in table.now) k (areas_of image stash.old work res patch)
        (find_in (held_in table.now) hash) }
{
    let Some(j) = table.find(hash) else {
        return StepEnd::Passed;
    };
    let start = table.blocks_before(j);
    let gap = table.blocks(j);
    let younger = table.blocks_before(MOST_STASHES) - (start + gap);
    let to = BLOCK_BYTES * (start + k * gap);
    let from = to + BLOCK_BYTES * gap;
    let end = from + BLOCK_BYTES * stretch_blocks(gap, younger, k);
    stash.copy_within(from..end, to);
    stretch_end(gap, younger, k)
}

// The next step of a command that needs no new data, or no more of it.
#[tactic(auto, unfolding(crate::specs::Steps::step_of, crate::specs::Runnable::Runnable, possible::specs::Possible::frees_on))]
pub(crate) fn run_step(
    image: &mut [u8],
    stash: &mut [u8],
    work: &mut [u8],
    res: &mut [u8],
    patch: &[u8],
    l: &[u8],
    line: Line,
    state: &State,
) -> StepEnd
    requires keeps { Keeps (held state.now) stash.old }
    requires runs { Runnable l.now (held state.now) (areas_of image.old stash.old work.old res.old patch.now) line.command }
    requires may_stretch { either (state.now.stretches == 0) (frees_on (held state.now) state.now.stretches line.hash line.command) ≡ true }
    ensures { stepped (areas_of image.new stash.new work.new res.new patch.now) result
        ≡ step_of l.now (held state.now) line.hash line.command state.now.ready state.now.stretches
        (areas_of image.old stash.old work.old res.old patch.now) }
{
    let command = line.command;
    let hash = line.hash;
    let table = &state.table;
    let ready = state.ready;
    match command {
        Command::Zero(set) | Command::Erase(set) => {
            zero_set(image, l, set.at);
            StepEnd::Passed
        }
        Command::Move {
            target,
            length,
            source,
        } => {
            let n = length as usize;
            step_move(
                image, &*stash, work, l, table, target, n, source, hash, ready,
            )
        }
        Command::Bsdiff {
            target,
            length,
            source,
        } => {
            let n = length as usize;
            step_bsdiff(
                image, &*stash, work, res, patch, l, table, target, n, source, hash, ready,
            )
        }
        Command::Stash(set) => step_stash(&*image, stash, work, l, table, set, hash, ready),
        Command::Free => step_free(stash, table, hash, state.stretches),
        Command::New(_) | Command::Unsupported | Command::Bad(_) => StepEnd::Passed,
    }
}
