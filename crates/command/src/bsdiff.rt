// A line of `bsdiff`: O, B, H, T, and what a `move` has after its hash.
ghost use Rattle.std.specs.Prelude.{◌≡◌};
ghost use Rattle.ranges.specs.Ranges.{least_blocks};
ghost use Rattle.command.specs.Commands.{command_read, line_read, digest_from, bsdiff_line};

use crate::field::{read_hash_field, read_number_field};
use crate::sourced::{Purpose, read_target};
use crate::{Command, Line, command_or_fault};

// T, after H, and what follows it.
#[tactic(auto, unfolding(crate::specs::Commands::digest_from))]
fn read_digest(l: &[u8], at: usize) -> Result<Command, usize>
    ensures { command_read result ≡ digest_from least_blocks l.now at }
{
    let (_, i) = read_hash_field(l, at)?;
    read_target(l, Purpose::Bsdiff, i)
}

#[tactic(auto, unfolding(crate::specs::Commands::bsdiff_line, crate::specs::Commands::length_line, crate::specs::Commands::patched_line))]
pub(crate) fn bsdiff_line(l: &[u8]) -> Result<Line, usize>
    ensures { line_read result ≡ bsdiff_line least_blocks l.now }
{
    let (_, i) = read_number_field(l, b"bsdiff".len())?;
    let (_, i) = read_number_field(l, i)?;
    let (hash, i) = read_hash_field(l, i)?;
    let command = command_or_fault(read_digest(l, i));
    Ok(Line { command, hash })
}
