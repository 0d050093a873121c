// The source of a `move` or of a `bsdiff`.
ghost use Rattle.std.specs.Prelude.{◌≡◌};
ghost use Rattle.ranges.specs.Ranges.{least_blocks};
ghost use Rattle.command.specs.Commands.{source_field};

use crate::field::read_set_field;
use crate::parts::read_parts_field;
use ranges::{LEAST_BLOCKS, RangeSet, read_ranges};
use text::expected::read_expected;

// The three forms: `S`; `- P ..`; `S L P ..`. `first` is where the first P stands.
#[derive(Clone, Copy)]
pub enum Source {
    Blocks(RangeSet),
    Stashes(usize),
    Both {
        blocks: RangeSet,
        places: RangeSet,
        first: usize,
    },
}

// A space and a source, to the line's end.
#[tactic(auto, unfolding(crate::specs::Commands::source_field, crate::specs::Commands::source_from, crate::specs::Commands::after_dash, crate::specs::Commands::after_blocks, crate::specs::Commands::with_places))]
pub(crate) fn read_source(l: &[u8], at: usize) -> Result<Source, usize>
    ensures { result ≡ source_field least_blocks l.now at }
{
    let i = read_expected(l, at, b' ')?;
    if let Ok(after) = read_expected(l, i, b'-') {
        let first = read_parts_field(l, after)?;
        return Ok(Source::Stashes(first));
    }
    let (blocks, i) = read_ranges(l, i, LEAST_BLOCKS)?;
    if read_expected(l, i, b'\n').is_ok() {
        return Ok(Source::Blocks(blocks));
    }
    let (places, i) = read_set_field(l, i)?;
    let first = read_parts_field(l, i)?;
    Ok(Source::Both {
        blocks,
        places,
        first,
    })
}
