// The stashes that a source names, each as `H:L`.
ghost use Rattle.std.specs.Prelude.{◌≡◌};
ghost use Rattle.ranges.specs.Ranges.{least_blocks};
ghost use Rattle.command.specs.Parts.{places_from, part_at, parts_at, parts_field};

use crate::NO_HASH;
use ranges::{LEAST_BLOCKS, RangeSet, read_ranges};
use text::expected::read_expected;
use text::hash::{HASH_BYTES, read_hash};

// One `H:L`, and the position of the one that follows after a space. The last has the line's end behind it. `end` is the position past either.
#[derive(Clone, Copy)]
pub struct Part {
    pub hash: [u8; HASH_BYTES],
    pub places: RangeSet,
    pub next: Option<usize>,
    pub end: usize,
}

// Where an `H:L` is at fault, with its hash: zeros where that is at fault itself.
#[derive(Clone, Copy)]
pub struct BadPart {
    pub at: usize,
    pub hash: [u8; HASH_BYTES],
}

// What follows a hash: a colon and the places.
#[tactic(auto, unfolding(crate::specs::Parts::places_from, crate::specs::Parts::part_end))]
fn read_places(l: &[u8], hash: [u8; HASH_BYTES], at: usize, least: u32) -> Result<Part, usize>
    ensures { result ≡ places_from least l.now hash at }
{
    let i = read_expected(l, at, b':')?;
    let (places, i) = read_ranges(l, i, least)?;
    let (next, end) = match read_expected(l, i, b'\n') {
        Ok(end) => (None, end),
        Err(_) => {
            let next = read_expected(l, i, b' ')?;
            (Some(next), next)
        }
    };
    Ok(Part {
        hash,
        places,
        next,
        end,
    })
}

// One `H:L`; each range of its places has at least so many blocks.
#[tactic(auto, unfolding(crate::specs::Parts::part_at))]
pub fn read_part(l: &[u8], at: usize, least: u32) -> Result<Part, BadPart>
    ensures { result ≡ part_at least l.now at }
{
    let (hash, i) = read_hash(l, at).map_err(|at| BadPart { at, hash: NO_HASH })?;
    read_places(l, hash, i, least).map_err(|at| BadPart { at, hash })
}

// One or more to the line's end: checked here, and read again where they are used. The answer is where the first stands.
pub(crate) fn check_parts(l: &[u8], first: usize) -> Result<usize, usize>
    ensures { result ≡ parts_at least_blocks l.now first }
{
    let mut next = Some(first);
    while let Some(at) = next {
        match read_part(l, at, LEAST_BLOCKS) {
            Ok(part) => next = part.next,
            Err(bad) => return Err(bad.at),
        }
    }
    Ok(first)
}

#[tactic(auto, unfolding(crate::specs::Parts::parts_field))]
pub(crate) fn read_parts_field(l: &[u8], at: usize) -> Result<usize, usize>
    ensures { result ≡ parts_field least_blocks l.now at }
{
    let first = read_expected(l, at, b' ')?;
    check_parts(l, first)
}
