// What a `move` and a `bsdiff` have in common: a target, N and a source.
ghost use Rattle.std.specs.Prelude.{◌≡◌};
ghost use Rattle.ranges.specs.Ranges.{least_blocks};
ghost use Rattle.command.specs.Commands.{command_for, target_from, command_read};

use crate::Command;
use crate::field::{read_number_field, read_set_field};
use crate::source::{Source, read_source};
use ranges::RangeSet;

// What a source is put together for.
#[derive(Clone, Copy)]
pub enum Purpose {
    Move,
    Bsdiff,
}

fn command_for(purpose: Purpose, target: RangeSet, length: u32, source: Source) -> Command
    ensures { result ≡ command_for purpose target length source }
{
    match purpose {
        Purpose::Move => Command::Move {
            target,
            length,
            source,
        },
        Purpose::Bsdiff => Command::Bsdiff {
            target,
            length,
            source,
        },
    }
}

#[tactic(auto, unfolding(crate::specs::Commands::target_from, crate::specs::Commands::length_from))]
pub(crate) fn read_target(l: &[u8], purpose: Purpose, at: usize) -> Result<Command, usize>
    ensures { command_read result ≡ target_from least_blocks l.now purpose at }
{
    let (target, i) = read_set_field(l, at)?;
    let (length, i) = read_number_field(l, i)?;
    let source = read_source(l, i)?;
    Ok(command_for(purpose, target, length, source))
}
