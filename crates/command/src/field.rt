// Fields of a line, each with the space before it.
ghost use Rattle.std.specs.Prelude.{◌≡◌};
ghost use Rattle.ranges.specs.Ranges.{least_blocks};
ghost use Rattle.command.specs.Fields.{number_field, hash_field, set_field, last_set};

use ranges::{LEAST_BLOCKS, RangeSet, read_ranges};
use text::Read;
use text::expected::read_expected;
use text::hash::{HASH_BYTES, read_hash};
use text::number::read_number;

#[tactic(auto, unfolding(crate::specs::Fields::set_field))]
pub(crate) fn read_set_field(l: &[u8], at: usize) -> Read<RangeSet>
    ensures { result ≡ set_field least_blocks l.now at }
{
    let i = read_expected(l, at, b' ')?;
    read_ranges(l, i, LEAST_BLOCKS)
}

#[tactic(auto, unfolding(crate::specs::Fields::hash_field))]
pub(crate) fn read_hash_field(l: &[u8], at: usize) -> Read<[u8; HASH_BYTES]>
    ensures { result ≡ hash_field l.now at }
{
    let i = read_expected(l, at, b' ')?;
    read_hash(l, i)
}

#[tactic(auto, unfolding(crate::specs::Fields::number_field))]
pub(crate) fn read_number_field(l: &[u8], at: usize) -> Read<u32>
    ensures { result ≡ number_field l.now at }
{
    let i = read_expected(l, at, b' ')?;
    read_number(l, i)
}

// A range set that is the line's last field.
#[tactic(auto, unfolding(crate::specs::Fields::last_set))]
pub(crate) fn read_last_set(l: &[u8], at: usize) -> Read<RangeSet>
    ensures { result ≡ last_set least_blocks l.now at }
{
    let (set, i) = read_set_field(l, at)?;
    let next = read_expected(l, i, b'\n')?;
    Ok((set, next))
}
