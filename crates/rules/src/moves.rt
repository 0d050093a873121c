// The rules of a `move` and of a `bsdiff`.
ghost use Rattle.std.specs.Prelude.{◌≡◌, List, ℕ};
ghost use Rattle.state.specs.Refusals.{checked_number};
ghost use Rattle.state.specs.Stashes.{Stash, held_in};
ghost use Rattle.command.specs.Parts.{uses_at};
ghost use Rattle.rules.specs.Move.{work_blocks, blocks_of, uses_by, source_differs, sourced_refusal, move_refusal, patch_past, bsdiff_refusal};
ghost use Rattle.rules.specs.Sums.{sums_of, sums_with};

use crate::places::places_fit;
use crate::{Terms, check_target};
use command::parts::read_part;
use command::patching::{Patching, read_patching};
use command::source::Source;
use marks::MARK_BYTES;
use ranges::{LEAST_AGAIN, RangeSet};
use state::limits::{HASH_BYTES, MOST_AREA_BLOCKS};
use state::refusals::Reason;
use state::stashes::Table;
use state::sums::bounded_sum;

// What a `move` and a `bsdiff` have in common: a target, N and a source.
#[derive(Clone, Copy)]
pub(crate) struct Sourced {
    pub target: RangeSet,
    pub length: u32,
    pub source: Source,
}

// The work area's blocks; none is larger than the limit.
pub(crate) fn work_blocks(terms: Terms) -> usize
    ensures { result ≡ work_blocks terms }
{
    terms.work.min(MOST_AREA_BLOCKS)
}

// The blocks of the image that a source has.
#[tactic(auto, unfolding(crate::specs::Move::blocks_of))]
fn blocks_of(source: Source) -> Option<RangeSet>
    ensures { result ≡ blocks_of source }
{
    match source {
        Source::Blocks(blocks) | Source::Both { blocks, .. } => Some(blocks),
        Source::Stashes(_) => None,
    }
}

// What the stashes that a source names come to: one is not held, one differs from its L, and all their places together. The three are wanted in
// an order of their own (10, 11), so no one of them stands for the others.
#[derive(Clone, Copy)]
struct Sums {
    missing: bool,
    differs: bool,
    places: usize,
}

const NO_SUMS: Sums = Sums {
    missing: false,
    differs: false,
    places: 0,
};

// The sums with one stash more, named with as many places.
#[tactic(auto, using(state::proofs::StashLaws::find_held, state::proofs::StashLaws::find_nothing), unfolding(crate::specs::Sums::sums_with, crate::specs::Move::stash_blocks))]
fn add_stash(sums: Sums, table: &Table, hash: [u8; HASH_BYTES], places: usize) -> Sums
    ensures { result ≡ sums_with sums (held_in table.now) hash places }
{
    let found = table.find(hash);
    let size = found.map_or(0, |j| table.blocks(j));
    Sums {
        missing: sums.missing || found.is_none(),
        differs: sums.differs || size != places,
        places: bounded_sum(sums.places, places),
    }
}

fn sum_stashes(l: &[u8], first: usize, table: &Table) -> Sums
    ensures { result ≡ sums_of (held_in table.now) (uses_at l.now first) }
{
    let mut sums = NO_SUMS;
    let mut next = Some(first);
    while let Some(at) = next {
        let Ok(part) = read_part(l, at, LEAST_AGAIN) else {
            return sums;
        };
        sums = add_stash(sums, table, part.hash, part.places.blocks);
        next = part.next;
    }
    sums
}

#[tactic(auto, unfolding(crate::specs::Move::uses_by, crate::specs::Move::some_missing, crate::specs::Move::some_differ, crate::specs::Move::places_named, crate::specs::Sums::sums_of))]
fn source_sums(l: &[u8], table: &Table, source: Source) -> Sums
    ensures { result ≡ sums_of (held_in table.now) (uses_by l.now source) }
{
    match source {
        Source::Blocks(_) => NO_SUMS,
        Source::Stashes(first) | Source::Both { first, .. } => sum_stashes(l, first, table),
    }
}

// 11 of a source, by the sums of the stashes that it names.
#[tactic(auto, using(std::proofs::lemmas::Grind::common_steps, crate::proofs::BoundLaws::eqb_bounded, crate::proofs::BoundLaws::eqb_more), unfolding(crate::specs::Move::source_differs, crate::specs::Move::uses_by, crate::specs::Sums::sums_of))]
fn source_differs(length: u32, source: Source, sums: Sums) -> bool
    ensures { (l : List ℕ) (held : List Stash) →
        sums ≡ sums_of held (uses_by l source) → result ≡ source_differs l held length source }
{
    let n = length as usize;
    match source {
        Source::Blocks(set) => set.blocks != n,
        Source::Stashes(_) => sums.differs || sums.places != n,
        Source::Both { blocks, places, .. } => {
            blocks.blocks != places.blocks
                || sums.differs
                || bounded_sum(places.blocks, sums.places) != n
        }
    }
}

// 8 to 12 of a command with a target, N and a source. What is asked of the target's size differs by the command: `over` is its 9, `differs`
// its 11. The text, the terms and the table stay three parameters: of a struct of them a contract speaks as `x.entry.l.now`.
#[tactic(auto, using(std::proofs::lemmas::Grind::common_steps, crate::proofs::SourceLaws::past_by_blocks, crate::proofs::SourceLaws::over_by_blocks, crate::proofs::SourceLaws::missing_by_sums), unfolding(crate::specs::Move::sourced_refusal))]
fn check_sourced(
    l: &[u8],
    terms: Terms,
    table: &Table,
    marks: &mut [u8; MARK_BYTES],
    sourced: Sourced,
    over: bool,
    differs: bool,
) -> Result<(), Reason>
    ensures { checked_number result ≡ sourced_refusal l.now terms (held_in table.now)
        over differs sourced.target sourced.length sourced.source }
{
    let Sourced {
        target,
        length,
        source,
    } = sourced;
    let n = length as usize;
    let blocks = blocks_of(source);
    check_target(terms, target)?;
    if let Some(set) = blocks {
        check_target(terms, set)?;
    }
    let work = work_blocks(terms);
    if over || work < n || blocks.is_some_and(|set| work < set.blocks) {
        return Err(Reason::PastArea);
    }
    let sums = source_sums(l, table, source);
    if sums.missing {
        return Err(Reason::NotHeld);
    }
    if differs || source_differs(length, source, sums) {
        return Err(Reason::SizesDiffer);
    }
    if !places_fit(l, n, source, marks) {
        return Err(Reason::Misplaced);
    }
    Ok(())
}

// The lowest number that applies to a `move`.
#[tactic(auto, unfolding(crate::specs::Move::move_refusal))]
pub(crate) fn check_move(
    l: &[u8],
    terms: Terms,
    table: &Table,
    marks: &mut [u8; MARK_BYTES],
    sourced: Sourced,
) -> Result<(), Reason>
    ensures { checked_number result ≡
        move_refusal l.now terms (held_in table.now) sourced.target sourced.length sourced.source }
{
    let differs = sourced.target.blocks != sourced.length as usize;
    check_sourced(l, terms, table, marks, sourced, false, differs)
}

// The patch ends past the patch data.
#[tactic(auto, unfolding(crate::specs::Move::patch_past))]
fn is_past_patch(terms: Terms, patching: Patching) -> bool
    ensures { result ≡ patch_past terms patching }
{
    terms.patch < patching.start as usize + patching.length as usize
}

// The lowest number that applies to a `bsdiff`.
#[tactic(auto, unfolding(crate::specs::Move::bsdiff_refusal))]
pub(crate) fn check_bsdiff(
    l: &[u8],
    terms: Terms,
    table: &Table,
    marks: &mut [u8; MARK_BYTES],
    sourced: Sourced,
) -> Result<(), Reason>
    ensures { checked_number result ≡
        bsdiff_refusal l.now terms (held_in table.now) sourced.target sourced.length sourced.source }
{
    let over = terms.result < sourced.target.blocks;
    check_sourced(l, terms, table, marks, sourced, over, false)?;
    if is_past_patch(terms, read_patching(l)) {
        return Err(Reason::PastPatch);
    }
    Ok(())
}
