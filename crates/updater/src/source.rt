// A source put together in the work area.
ghost use Rattle.std.specs.Prelude.{◌≡◌, ◌/◌, length};
ghost use Rattle.ranges.specs.Walk.{blocks_at};
ghost use Rattle.state.specs.Limits.{block_bytes};
ghost use Rattle.state.specs.Stashes.{held_in};
ghost use Rattle.command.specs.Parts.{uses_at};
ghost use Rattle.updater.specs.Bytes.{written};
ghost use Rattle.updater.specs.Source.{stash_bytes, spread, together};
ghost use Rattle.updater.specs.Runnable.{Keeps, use_of, Spread, Spreads, Sourced};

use crate::areas::place_block;
use crate::sets::{place_set, supply};
use command::parts::read_part;
use command::source::Source;
use ranges::walk::{next_block, walk_from};
use ranges::{LEAST_AGAIN, RangeSet};
use state::limits::HASH_BYTES;
use state::stashes::Table;

// One stash, by its hash, over the places of a set.
fn spread_one(
    image: &[u8],
    stash: &[u8],
    work: &mut [u8],
    l: &[u8],
    table: &Table,
    places: RangeSet,
    hash: [u8; HASH_BYTES],
)
    requires keeps { Keeps (held_in table.now) stash.now }
    requires spread { Spread l.now (held_in table.now) (length work.old / block_bytes) (use_of hash places) }
    ensures { work.new ≡ written (blocks_at l.now places.at) (stash_bytes (held_in table.now) stash.now hash) work.old }
{
    if let Some(j) = table.find(hash) {
        let mut block = table.blocks_before(j);
        let mut w = walk_from(l, places.at);
        while let Some((p, rest)) = next_block(l, w) {
            place_block(image, stash, work, true, block, p as usize);
            block += 1;
            w = rest;
        }
    }
}

// Every stash used from a position of the line on, over its places.
fn spread_stashes(
    image: &[u8],
    stash: &[u8],
    work: &mut [u8],
    l: &[u8],
    table: &Table,
    first: usize,
)
    requires keeps { Keeps (held_in table.now) stash.now }
    requires spreads { Spreads l.now (held_in table.now) (length work.old / block_bytes) (uses_at l.now first) }
    ensures { work.new ≡ spread l.now (held_in table.now) stash.now (uses_at l.now first) work.old }
{
    let mut next = Some(first);
    while let Some(at) = next {
        let Ok(part) = read_part(l, at, LEAST_AGAIN) else {
            return;
        };
        spread_one(image, stash, work, l, table, part.places, part.hash);
        next = part.next;
    }
}

// The source of a `move` or of a `bsdiff`.
#[tactic(auto, unfolding(crate::specs::Source::together, crate::specs::Runnable::Sourced))]
pub(crate) fn put_together(
    image: &[u8],
    stash: &[u8],
    work: &mut [u8],
    l: &[u8],
    table: &Table,
    source: Source,
)
    requires keeps { Keeps (held_in table.now) stash.now }
    requires sourced { Sourced l.now (held_in table.now) image.now work.old source }
    ensures { work.new ≡ together l.now image.now stash.now (held_in table.now) source work.old }
{
    match source {
        Source::Blocks(set) => supply(image, stash, work, l, set),
        Source::Stashes(first) => spread_stashes(image, stash, work, l, table, first),
        Source::Both {
            blocks,
            places,
            first,
        } => {
            place_set(image, stash, work, l, blocks, places);
            spread_stashes(image, stash, work, l, table, first);
        }
    }
}
