// The blocks of a range set, one after the other, read again from the text.
ghost use Rattle.std.specs.Prelude.{◌≡◌};
ghost use Rattle.ranges.specs.Walk.{walk_from, step_of, past_range};

use crate::{LEAST_AGAIN, read_pair};
use text::number::read_number;

// What is left of a set: the pairs from `at` on, and the blocks from `block` up to `end` of the range at hand.
#[derive(Clone, Copy)]
pub struct Walk {
    pub at: usize,
    pub left: u32,
    pub block: u32,
    pub end: u32,
}

// The walk over the set that stands at a position.
#[tactic(auto, unfolding(crate::specs::Walk::walk_from))]
pub fn walk_from(s: &[u8], at: usize) -> Walk
    ensures { result ≡ walk_from s.now at }
{
    let (left, at) = match read_number(s, at) {
        Ok((count, from)) => (count / 2, from),
        Err(_) => (0, at),
    };
    Walk {
        at,
        left,
        block: 0,
        end: 0,
    }
}

// The next block, and the walk past it.
pub fn next_block(s: &[u8], w: Walk) -> Option<(u32, Walk)>
    ensures { result ≡ step_of s.now w }
{
    let mut rest = w;
    while rest.end <= rest.block {
        if rest.left == 0 {
            return None;
        }
        let ((start, end), next) = read_pair(s, rest.at, LEAST_AGAIN).ok()?;
        rest = Walk {
            at: next,
            left: rest.left - 1,
            block: start,
            end,
        };
    }
    let block = rest.block;
    rest.block += 1;
    Some((block, rest))
}

// The walk past the blocks that are left of the range at hand, for a caller that takes them all at once.
pub fn past_range(w: Walk) -> Walk
    ensures { result ≡ past_range w }
{
    Walk { block: w.end, ..w }
}
