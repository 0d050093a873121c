// The places of a put-together source, each marked as it is taken. The marks are room that a caller has, so that they are cleared only as
// far as N.
ghost use Rattle.std.specs.Prelude.{◌≡◌, ◌-◌, ◌≤◌};
ghost use Rattle.text.specs.Choice.{no};
ghost use Rattle.ranges.specs.Ranges.{span};
ghost use Rattle.ranges.specs.Walk.{blocks_at};
ghost use Rattle.state.specs.Limits.{most_area_blocks};
ghost use Rattle.command.specs.Parts.{uses_at};
ghost use Rattle.rules.specs.Move.{places_of, source_misplaced};
ghost use Rattle.rules.specs.Taken.{Takes};

use command::parts::read_part;
use command::source::Source;
use marks::{MARK_BYTES, clear_marks, take_place};
use ranges::LEAST_AGAIN;
use ranges::walk::{next_block, past_range, walk_from};

// Takes the places from one up to another; false where one is at n or above, or taken already.
fn take_range(from: usize, to: usize, n: usize, marks: &mut [u8; MARK_BYTES]) -> bool
    ensures { Takes n marks.old marks.new (span from (to - from)) result }
{
    for p in from..to.min(n).max(from) {
        if !take_place(marks, p) {
            return false;
        }
    }
    to <= n || to <= from
}

// Takes the places of the set at a position; false where one is at n or above, or taken already.
fn take_places(l: &[u8], at: usize, n: usize, marks: &mut [u8; MARK_BYTES]) -> bool
    ensures { Takes n marks.old marks.new (blocks_at l.now at) result }
{
    let mut w = walk_from(l, at);
    while let Some((p, rest)) = next_block(l, w) {
        if !take_range(p as usize, rest.end as usize, n, marks) {
            return false;
        }
        w = past_range(rest);
    }
    true
}

// Takes the places of every stash named from a position on.
fn take_uses(l: &[u8], first: usize, n: usize, marks: &mut [u8; MARK_BYTES]) -> bool
    ensures { Takes n marks.old marks.new (places_of l.now (uses_at l.now first)) result }
{
    let mut next = Some(first);
    while let Some(at) = next {
        let Ok(part) = read_part(l, at, LEAST_AGAIN) else {
            return true;
        };
        if !take_places(l, part.places.at, n, marks) {
            return false;
        }
        next = part.next;
    }
    true
}

// No place of the source is at n or above, and none is taken twice.
pub(crate) fn places_fit(l: &[u8], n: usize, source: Source, marks: &mut [u8; MARK_BYTES]) -> bool
    requires { n ≤ most_area_blocks }
    ensures { result ≡ no (source_misplaced l.now n source) }
{
    match source {
        Source::Blocks(_) => true,
        Source::Stashes(first) => {
            clear_marks(marks, n);
            take_uses(l, first, n, marks)
        }
        Source::Both { places, first, .. } => {
            clear_marks(marks, n);
            take_places(l, places.at, n, marks) && take_uses(l, first, n, marks)
        }
    }
}
