// Effects over the blocks of a range set, in the written order.
ghost use Rattle.std.specs.Prelude.{◌≡◌, ◌*◌, ◌/◌, ◌≤◌, length};
ghost use Rattle.ranges.specs.Walk.{blocks_at, AllBelow};
ghost use Rattle.state.specs.Limits.{block_bytes};
ghost use Rattle.updater.specs.Bytes.{zeroed, gathered, written};
ghost use Rattle.updater.specs.Source.{supplied};
ghost use Rattle.updater.specs.Runnable.{blocks_in, InImage, InWork};

use crate::areas::{copy_over, place_block};
use ranges::RangeSet;
use ranges::walk::{next_block, walk_from};
use state::limits::BLOCK_BYTES;

// Zeros over the blocks of the set at a position of the line.
pub(crate) fn zero_set(image: &mut [u8], l: &[u8], at: usize)
    requires { AllBelow (length image.old / block_bytes) (blocks_at l.now at) }
    ensures { image.new ≡ zeroed (blocks_at l.now at) image.old }
{
    let mut w = walk_from(l, at);
    while let Some((b, rest)) = next_block(l, w) {
        let start = BLOCK_BYTES * b as usize;
        let end = start + BLOCK_BYTES;
        image[start..end].fill(0);
        w = rest;
    }
}

// Bytes over the blocks of the set.
pub(crate) fn write_set(area: &mut [u8], l: &[u8], at: usize, bytes: &[u8])
    requires { AllBelow (length area.old / block_bytes) (blocks_at l.now at) × (block_bytes * length (blocks_at l.now at) ≤ length bytes.now) }
    ensures { area.new ≡ written (blocks_at l.now at) bytes.now area.old }
{
    let mut w = walk_from(l, at);
    let mut left = bytes;
    while let Some((b, rest)) = next_block(l, w) {
        let (block, more) = left.split_at(BLOCK_BYTES);
        copy_over(area, BLOCK_BYTES * b as usize, block);
        left = more;
        w = rest;
    }
}

// The set's blocks of the image become the work area's first ones.
pub(crate) fn supply(image: &[u8], stash: &[u8], work: &mut [u8], l: &[u8], set: RangeSet)
    requires { InImage l.now image.now set × (set.blocks ≤ blocks_in work.old) }
    ensures { work.new ≡ supplied l.now image.now set.at set.blocks work.old }
{
    let mut w = walk_from(l, set.at);
    let mut place = 0;
    while let Some((b, rest)) = next_block(l, w) {
        place_block(image, stash, work, false, b as usize, place);
        place += 1;
        w = rest;
    }
}

// The set's blocks of the image become the work area's blocks that the places name.
pub(crate) fn place_set(
    image: &[u8],
    stash: &[u8],
    work: &mut [u8],
    l: &[u8],
    set: RangeSet,
    places: RangeSet,
)
    requires { InImage l.now image.now set × InWork l.now work.old set places }
    ensures { work.new ≡ written (blocks_at l.now places.at) (gathered (blocks_at l.now set.at) image.now) work.old }
{
    let mut from = walk_from(l, set.at);
    let mut to = walk_from(l, places.at);
    while let Some((b, more)) = next_block(l, from) {
        let Some((p, rest)) = next_block(l, to) else {
            return;
        };
        place_block(image, stash, work, false, b as usize, p as usize);
        from = more;
        to = rest;
    }
}
