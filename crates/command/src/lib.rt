// A line of a transfer list, read as a command.
#![tactic(auto)]

ghost use Rattle.std.specs.Prelude.{◌≡◌};
ghost use Rattle.ranges.specs.Ranges.{least_blocks};
ghost use Rattle.command.specs.Commands.{command_read, line_read, with_set, plain, after_hash, hashed_line, range_line, command_of};

use crate::bsdiff::bsdiff_line;
use crate::field::{read_hash_field, read_last_set};
use crate::source::Source;
use crate::sourced::{Purpose, read_target};
use crate::word::{HashWord, RangeWord, Word, word_fault, word_of};
use ranges::RangeSet;
use text::expected::read_expected;
use text::hash::HASH_BYTES;

mod bsdiff;
pub mod faults;
pub mod field;
pub mod filling;
pub mod parts;
pub mod patching;
pub mod source;
pub mod sourced;
pub mod targets;
pub mod word;

// `Unsupported` is `imgdiff`; `Bad` has the position of the line's fault.
#[derive(Clone, Copy)]
pub enum Command {
    Zero(RangeSet),
    Erase(RangeSet),
    New(RangeSet),
    Move {
        target: RangeSet,
        length: u32,
        source: Source,
    },
    Bsdiff {
        target: RangeSet,
        length: u32,
        source: Source,
    },
    Stash(RangeSet),
    Free,
    Unsupported,
    Bad(usize),
}

// A command beside its hash, which is zero where the command has none: the digest that the source must have, and the stash's name.
#[derive(Clone, Copy)]
pub struct Line {
    pub command: Command,
    pub hash: [u8; HASH_BYTES],
}

// What stands for a line's hash where it has none.
pub(crate) const NO_HASH: [u8; HASH_BYTES] = [0u8; HASH_BYTES];

pub(crate) fn command_or_fault(read: Result<Command, usize>) -> Command
    ensures { result ≡ command_read read }
{
    match read {
        Ok(command) => command,
        Err(p) => Command::Bad(p),
    }
}

fn without_hash(command: Command) -> Line
    ensures { result ≡ plain command }
{
    Line {
        command,
        hash: NO_HASH,
    }
}

// What follows the hash, by the word.
#[tactic(auto, unfolding(crate::specs::Commands::stash_from, crate::specs::Commands::free_from))]
fn after_hash(l: &[u8], word: HashWord, at: usize) -> Result<Command, usize>
    ensures { command_read result ≡ after_hash least_blocks l.now word at }
{
    match word {
        HashWord::Move => read_target(l, Purpose::Move, at),
        HashWord::Stash => {
            let (set, _) = read_last_set(l, at)?;
            Ok(Command::Stash(set))
        }
        HashWord::Free => {
            read_expected(l, at, b'\n')?;
            Ok(Command::Free)
        }
    }
}

// `move`, `stash` and `free`: a word, a hash, and what follows it.
#[tactic(auto, unfolding(crate::specs::Commands::hashed_line))]
fn hashed_line(l: &[u8], word: HashWord) -> Result<Line, usize>
    ensures { line_read result ≡ hashed_line least_blocks l.now word }
{
    let (hash, at) = read_hash_field(l, word.spelling().len())?;
    let command = command_or_fault(after_hash(l, word, at));
    Ok(Line { command, hash })
}

fn with_set(word: RangeWord, set: RangeSet) -> Command
    ensures { result ≡ with_set word set }
{
    match word {
        RangeWord::Zero => Command::Zero(set),
        RangeWord::Erase => Command::Erase(set),
        RangeWord::New => Command::New(set),
    }
}

// `zero`, `erase` and `new`: a word and a range set.
#[tactic(auto, unfolding(crate::specs::Commands::range_line))]
fn range_line(l: &[u8], word: RangeWord) -> Result<Line, usize>
    ensures { line_read result ≡ range_line least_blocks l.now word }
{
    let (set, _) = read_last_set(l, word.spelling().len())?;
    Ok(without_hash(with_set(word, set)))
}

#[tactic(auto, unfolding(crate::specs::Commands::command_of))]
fn read_line(l: &[u8]) -> Result<Line, usize>
    ensures { line_read result ≡ command_of least_blocks l.now }
{
    match word_of(l) {
        Word::Ranges(word) => range_line(l, word),
        Word::Hash(word) => hashed_line(l, word),
        Word::Bsdiff => bsdiff_line(l),
        Word::Imgdiff => Ok(without_hash(Command::Unsupported)),
        Word::Unknown => Err(word_fault(l)),
    }
}

// The command of a line that is handed over as its part of the text.
pub fn read_command(l: &[u8]) -> Line
    ensures { result ≡ command_of least_blocks l.now }
{
    match read_line(l) {
        Ok(line) => line,
        Err(p) => without_hash(Command::Bad(p)),
    }
}
