// One line checked against what is held.
#![tactic(auto)]

ghost use Rattle.std.specs.Prelude.{◌≡◌};
ghost use Rattle.ranges.specs.Ranges.{least_blocks};
ghost use Rattle.state.specs.Refusals.{checked_number};
ghost use Rattle.state.specs.Stashes.{held_in};
ghost use Rattle.rules.specs.Rules.{target_refusal, too_much, stash_refusal, free_refusal, refusal_for, checked_as, checked_of};

use crate::moves::{Sourced, check_bsdiff, check_move, work_blocks};
use command::{Command, Line, read_command};
use marks::MARK_BYTES;
use ranges::RangeSet;
use state::limits::{HASH_BYTES, MOST_STASHES};
use state::refusals::Reason;
use state::stashes::Table;
use state::sums::bounded_sum;

pub mod held;
mod moves;
mod places;

// The blocks of the image, of the work area and of the result area; the bytes of the patch data; and lines 3 and 4 of the list: the most
// stashes and the most blocks held at once.
#[derive(Clone, Copy)]
pub struct Terms {
    pub image: usize,
    pub work: usize,
    pub result: usize,
    pub patch: usize,
    pub stashes: u32,
    pub blocks: u32,
}

// A line read, and why it is refused.
#[derive(Clone, Copy)]
pub struct Checked {
    pub line: Line,
    pub refusal: Result<(), Reason>,
}

fn check_target(terms: Terms, set: RangeSet) -> Result<(), Reason>
    ensures { checked_number result ≡ target_refusal terms set }
{
    if terms.image < set.end as usize {
        return Err(Reason::PastImage);
    }
    Ok(())
}

// Holding as many blocks more would pass line 3 or line 4.
#[tactic(auto, using(std::proofs::lemmas::Grind::common_steps, crate::proofs::BoundLaws::held_length, crate::proofs::BoundLaws::ltb_blocks))]
fn is_too_much(terms: Terms, table: &Table, set: RangeSet) -> bool
    ensures { result ≡ too_much terms (held_in table.now) set }
{
    terms.stashes as usize <= table.held_count()
        || (terms.blocks as usize) < bounded_sum(table.blocks_before(MOST_STASHES), set.blocks)
}

#[tactic(auto, using(state::proofs::StashLaws::find_held, state::proofs::StashLaws::find_nothing), unfolding(crate::specs::Rules::stash_refusal))]
fn check_stash(
    terms: Terms,
    table: &Table,
    hash: [u8; HASH_BYTES],
    set: RangeSet,
) -> Result<(), Reason>
    ensures { checked_number result ≡ stash_refusal terms (held_in table.now) hash set }
{
    check_target(terms, set)?;
    if work_blocks(terms) < set.blocks {
        return Err(Reason::PastArea);
    }
    if table.find(hash).is_some() {
        return Err(Reason::HeldAlready);
    }
    if is_too_much(terms, table, set) {
        return Err(Reason::NoRoom);
    }
    Ok(())
}

#[tactic(auto, using(state::proofs::StashLaws::find_held, state::proofs::StashLaws::find_nothing), unfolding(crate::specs::Rules::free_refusal))]
fn check_free(table: &Table, hash: [u8; HASH_BYTES]) -> Result<(), Reason>
    ensures { checked_number result ≡ free_refusal (held_in table.now) hash }
{
    match table.find(hash) {
        Some(_) => Ok(()),
        None => Err(Reason::NotHeld),
    }
}

#[tactic(auto, unfolding(crate::specs::Rules::refusal_for))]
fn check_command(
    l: &[u8],
    terms: Terms,
    table: &Table,
    marks: &mut [u8; MARK_BYTES],
    line: Line,
) -> Result<(), Reason>
    ensures { checked_number result ≡ refusal_for l.now terms (held_in table.now) line.hash line.command }
{
    match line.command {
        Command::Zero(set) | Command::Erase(set) | Command::New(set) => check_target(terms, set),
        Command::Move {
            target,
            length,
            source,
        } => {
            let sourced = Sourced {
                target,
                length,
                source,
            };
            check_move(l, terms, table, marks, sourced)
        }
        Command::Bsdiff {
            target,
            length,
            source,
        } => {
            let sourced = Sourced {
                target,
                length,
                source,
            };
            check_bsdiff(l, terms, table, marks, sourced)
        }
        Command::Stash(set) => check_stash(terms, table, line.hash, set),
        Command::Free => check_free(table, line.hash),
        Command::Unsupported => Err(Reason::Unsupported),
        Command::Bad(_) => Err(Reason::LineForm),
    }
}

// A line that is handed over as its part of the text, checked against the table of the stashes held. The marks are room to check places in:
// what they hold before and after is free, and no answer depends on it.
#[tactic(auto, unfolding(crate::specs::Rules::refusal_of, crate::specs::Rules::checked_of))]
pub fn check_line(l: &[u8], terms: Terms, table: &Table, marks: &mut [u8; MARK_BYTES]) -> Checked
    ensures { checked_as result ≡ checked_of least_blocks l.now terms (held_in table.now) }
{
    let line = read_command(l);
    let refusal = check_command(l, terms, table, marks, line);
    Checked { line, refusal }
}
