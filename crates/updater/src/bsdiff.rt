// What each step of a `bsdiff` does: a source is patched into the result area and, where that has its digest, goes from there to the image.
ghost use Rattle.std.specs.Prelude.{◌≡◌, ℕ, ◌+◌, ◌/◌, ◌≤◌, List, length, take, drop};
ghost use Rattle.text.specs.Choice.{pick};
ghost use Rattle.state.specs.Limits.{block_bytes};
ghost use Rattle.state.specs.Refusals.{none, patch_malformed, checked_number};
ghost use Rattle.state.specs.Stashes.{held_in};
ghost use Rattle.command.specs.declared.Command.TheVariants.{Bsdiff};
ghost use Rattle.copy.specs.Over.{over};
ghost use Rattle.patch.specs.Patch.{is_patch, patched_by};
ghost use Rattle.updater.specs.Areas.{areas_of};
ghost use Rattle.updater.specs.Effect.{effect_of, patch_filled, bsdiff_filled};
ghost use Rattle.updater.specs.Runnable.{Keeps, BsdiffRuns};
ghost use Rattle.updater.specs.Steps.{stepped, fill_step};

use crate::commands::{StepEnd, fill_end};
use crate::digest::{check_hash, set_has_hash};
use crate::sets::write_set;
use crate::source::put_together;
use command::patching::{Patching, read_patching, read_result_hash};
use command::source::Source;
use patch::apply;
use ranges::RangeSet;
use state::limits::{BLOCK_BYTES, HASH_BYTES};
use state::refusals::Reason;
use state::stashes::Table;

// What the patch makes of a source, over the first bytes of the result area, as many as `size`; a malformed patch writes nothing.
fn make_result(
    patch: &[u8],
    patching: Patching,
    source: &[u8],
    res: &mut [u8],
    size: usize,
) -> Result<(), Reason>
    requires { (patching.start + patching.length ≤ length patch.now) × (size ≤ length res.old) }
    ensures good { checked_number result
        ≡ pick (is_patch (take patching.length (drop patching.start patch.now)) size) none patch_malformed }
    ensures made { res.new ≡ pick (is_patch (take patching.length (drop patching.start patch.now)) size)
        (over res.old 0 (patched_by (take patching.length (drop patching.start patch.now)) source.now))
        res.old }
{
    let start = patching.start as usize;
    let end = start + patching.length as usize;
    if apply(&patch[start..end], source, &mut res[..size]) {
        return Ok(());
    }
    Err(Reason::PatchMalformed)
}

// The source in the work area's first n blocks is patched into the result area, and what comes of it must have the digest T.
#[tactic(auto, unfolding(crate::specs::Effect::patch_filled, crate::specs::Effect::result_filled))]
fn patch_source(
    work: &[u8],
    res: &mut [u8],
    patch: &[u8],
    l: &[u8],
    patching: Patching,
    target: RangeSet,
    n: usize,
) -> Result<(), Reason>
    requires room { (n ≤ length work.now / block_bytes) × (target.blocks ≤ length res.old / block_bytes) }
    requires patch_within { patching.start + patching.length ≤ length patch.now }
    ensures { (image stash : List ℕ) →
        effect_of (areas_of image stash work.now res.new patch.now) (checked_number result)
        ≡ patch_filled l.now patching target n
        (areas_of image stash work.now res.old patch.now) }
{
    let end = BLOCK_BYTES * n;
    let size = BLOCK_BYTES * target.blocks;
    make_result(patch, patching, &work[..end], res, size)?;
    let wanted = read_result_hash(l, patching.hashes);
    check_hash(&*res, target.blocks, wanted)
}

// The source goes into the work area and, if its digest is H, what the patch makes of it into the result area.
#[tactic(auto, unfolding(crate::specs::Effect::bsdiff_filled))]
fn fill_bsdiff(
    image: &[u8],
    stash: &[u8],
    work: &mut [u8],
    res: &mut [u8],
    patch: &[u8],
    l: &[u8],
    table: &Table,
    target: RangeSet,
    n: usize,
    source: Source,
    hash: [u8; HASH_BYTES],
) -> Result<(), Reason>
    requires keeps { Keeps (held_in table.now) stash.now }
    requires runs { BsdiffRuns l.now (held_in table.now)
        (areas_of image.now stash.now work.old res.old patch.now) target n source }
    ensures { effect_of (areas_of image.now stash.now work.new res.new patch.now) (checked_number result)
        ≡ bsdiff_filled l.now (held_in table.now) hash target n source
        (areas_of image.now stash.now work.old res.old patch.now) }
{
    put_together(image, stash, work, l, table, source);
    check_hash(&*work, n, hash)?;
    patch_source(&*work, res, patch, l, read_patching(l), target, n)
}

// What is ready is written, whatever the target holds; a target that already has the digest T is left as it is, and so are the work and the
// result area; else these are filled.
#[tactic(auto, unfolding(crate::specs::Steps::fill_step, crate::specs::Effect::filled, crate::specs::Effect::is_finished, crate::specs::Effect::written_from))]
pub(crate) fn step_bsdiff(
    image: &mut [u8],
    stash: &[u8],
    work: &mut [u8],
    res: &mut [u8],
    patch: &[u8],
    l: &[u8],
    table: &Table,
    target: RangeSet,
    n: usize,
    source: Source,
    hash: [u8; HASH_BYTES],
    ready: usize,
) -> StepEnd
    requires keeps { Keeps (held_in table.now) stash.now }
    requires runs { BsdiffRuns l.now (held_in table.now)
        (areas_of image.old stash.now work.old res.old patch.now) target n source }
    ensures { stepped (areas_of image.new stash.now work.new res.new patch.now) result
        ≡ fill_step l.now (held_in table.now) hash (Bsdiff target n source) ready
        (areas_of image.old stash.now work.old res.old patch.now) }
{
    if ready != 0 {
        let end = BLOCK_BYTES * target.blocks;
        write_set(image, l, target.at, &res[..end]);
        return StepEnd::Ended;
    }
    let patching = read_patching(l);
    let wanted = read_result_hash(l, patching.hashes);
    if set_has_hash(&*image, l, target.at, wanted) {
        return StepEnd::Ended;
    }
    fill_end(fill_bsdiff(
        &*image, stash, work, res, patch, l, table, target, n, source, hash,
    ))
}
