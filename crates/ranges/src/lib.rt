// Range sets.
#![tactic(auto)]

ghost use Rattle.std.specs.Prelude.{◌≡◌};
ghost use Rattle.ranges.specs.Ranges.{item_at, pair_at, ranges_at};

use text::Read;
use text::expected::read_expected;
use text::number::{Need, read_number_for};

pub mod walk;

// A range of a list has at least one block.
pub const LEAST_BLOCKS: u32 = 1;

// A set that is read again was checked with its line.
pub const LEAST_AGAIN: u32 = 0;

// The largest number of a list.
const LARGEST: u32 = 4294967295;

// Where a set stands in the text, how many blocks it has and its largest end.
#[derive(Clone, Copy)]
pub struct RangeSet {
    pub at: usize,
    pub blocks: usize,
    pub end: u32,
}

// A comma and a number.
#[tactic(auto, unfolding(crate::specs::Ranges::item_at, text::specs::Expected::expected_at))]
fn read_item(s: &[u8], at: usize, need: Need) -> Read<u32>
    ensures { result ≡ item_at need s.now at }
{
    let i = read_expected(s, at, b',')?;
    read_number_for(s, i, need)
}

// One range of at least so many blocks, with a comma before each of its numbers: its first block, and the one past its last.
#[tactic(auto, using(crate::proofs::RangesLaws::item_most), unfolding(crate::specs::Ranges::pair_at))]
pub fn read_pair(s: &[u8], at: usize, least: u32) -> Read<(u32, u32)>
    ensures { result ≡ pair_at least s.now at }
{
    let most = LARGEST - least;
    let (start, i) = read_item(s, at, Need::AtMost(most))?;
    let low = start + least;
    let (end, next) = read_item(s, i, Need::AtLeast(low))?;
    Ok(((start, end), next))
}

// The whole set, checked and measured; each range has at least so many blocks. Its fault is the first byte at which no range set could go on.
pub fn read_ranges(s: &[u8], at: usize, least: u32) -> Read<RangeSet>
    ensures { result ≡ ranges_at least s.now at }
{
    let (count, from) = read_number_for(s, at, Need::Count)?;
    let mut blocks: usize = 0;
    let mut last: u32 = 0;
    let mut i = from;
    for _ in 0..count / 2 {
        let ((start, end), next) = read_pair(s, i, least)?;
        blocks += (end - start) as usize;
        last = last.max(end);
        i = next;
    }
    Ok((
        RangeSet {
            at,
            blocks,
            end: last,
        },
        i,
    ))
}
