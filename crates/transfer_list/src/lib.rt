// Opening a transfer list: the whole text is checked before anything is run.
#![tactic(auto)]

ghost use Rattle.std.specs.Prelude.{◌≡◌, [], suc, ◌≤◌, length};
ghost use Rattle.ranges.specs.Ranges.{least_blocks};
ghost use Rattle.state.specs.Limits.{most_list_bytes, most_stashes};
ghost use Rattle.state.specs.Refusals.{checked_refusal};
ghost use Rattle.state.specs.States.{state_at};
ghost use Rattle.transfer_list.specs.Header.{first_line};
ghost use Rattle.transfer_list.specs.Opening.{terms_of, counted_blocks, lines_refusal, open_refusal, lengths_of, open_state};

use crate::header::{FIRST_LINE, Header, check_start, read_header};
use command::Command;
use command::faults::fault_of;
use marks::MARK_BYTES;
use rules::held::hold_after;
use rules::{Terms, check_line};
use state::limits::BLOCK_BYTES;
use state::refusals::{Reason, Refused};
use state::stashes::Table;
use state::sums::bounded_sum;
use state::{Lengths, Refusal, State};
use text::line::line_at;

pub mod header;

const NO_REFUSAL: Refusal = Refusal {
    number: 0,
    line: 0,
    byte: 0,
};

const NO_LENGTHS: Lengths = Lengths {
    list: 0,
    image: 0,
    stash: 0,
    work: 0,
    result: 0,
    patch: 0,
};

// What a line is checked against.
pub fn terms_of(lengths: Lengths, h: Header) -> Terms
    ensures { result ≡ terms_of lengths h }
{
    Terms {
        image: lengths.image / BLOCK_BYTES,
        work: lengths.work / BLOCK_BYTES,
        result: lengths.result / BLOCK_BYTES,
        patch: lengths.patch,
        stashes: h.stashes,
        blocks: h.blocks,
    }
}

// The blocks of a command's target that line 2 counts.
#[tactic(auto, unfolding(crate::specs::Opening::counted_blocks))]
fn counted_blocks(command: Command) -> usize
    ensures { result ≡ counted_blocks command }
{
    match command {
        Command::New(target) => target.blocks,
        Command::Zero(target) => target.blocks,
        Command::Move { target, .. } => target.blocks,
        Command::Bsdiff { target, .. } => target.blocks,
        _ => 0,
    }
}

// A state at a line, with nothing held.
fn state_at(line: usize, at: usize, refusal: Refusal, lengths: Lengths) -> State
    ensures { result ≡ state_at line at refusal lengths }
{
    State {
        table: Table::new(),
        line,
        at,
        into: 0,
        total: 0,
        ready: 0,
        stretches: 0,
        refusal,
        lengths,
    }
}

// The command lines, top to bottom. A line says where the next one starts, and its number is counted to be reported.
fn check_lines(list: &[u8], terms: Terms, h: Header) -> Result<(), Refused>
    requires { (length list.now ≤ most_list_bytes) × (terms.stashes ≤ most_stashes) }
    ensures { checked_refusal result ≡ lines_refusal least_blocks (suc (length list.now)) list.now terms h first_line h.first [] 0 }
{
    let mut table = Table::new();
    let mut marks = [0; MARK_BYTES];
    let mut line = FIRST_LINE;
    let mut at = h.first;
    let mut counted = 0;
    while at < list.len() {
        let l = line_at(list, at);
        let checked = check_line(l, terms, &table, &mut marks);
        let read = checked.line;
        if let Err(reason) = checked.refusal {
            let byte = match fault_of(read.command) {
                Some(p) => at + p,
                None => 0,
            };
            return Err(Refused { reason, line, byte });
        }
        hold_after(&mut table, read);
        counted = bounded_sum(counted, counted_blocks(read.command));
        at += l.len();
        line += 1;
    }
    if counted != h.total as usize {
        return Err(Refused {
            reason: Reason::TotalDiffers,
            line: 2,
            byte: 0,
        });
    }
    Ok(())
}

// What an opening refuses.
#[tactic(auto, unfolding(crate::specs::Opening::open_refusal, crate::specs::Opening::commands_refusal))]
fn check_list(list: &[u8], lengths: Lengths) -> Result<(), Refused>
    ensures { checked_refusal result ≡ open_refusal least_blocks list.now lengths }
{
    check_start(list, lengths)?;
    match read_header(list) {
        Ok(h) => check_lines(list, terms_of(lengths, h), h),
        Err(_) => Ok(()),
    }
}

// Opens a list over an image, a stash area, a work area, a result area and patch data of the given lengths in bytes. The state holds the
// refusal, if any.
#[tactic(auto, unfolding(crate::specs::Opening::open_state, crate::specs::Opening::refused_state, crate::specs::Opening::accepted_state, crate::specs::Opening::first_at))]
pub fn open(list: &[u8], image: usize, stash: usize, work: usize, res: usize, patch: usize) -> State
    ensures { result ≡ open_state least_blocks list.now (lengths_of list.now image stash work res patch) }
{
    let lengths = Lengths {
        list: list.len(),
        image,
        stash,
        work,
        result: res,
        patch,
    };
    if let Err(refused) = check_list(list, lengths) {
        return state_at(0, 0, refused.refusal(), NO_LENGTHS);
    }
    let first = match read_header(list) {
        Ok(h) => h.first,
        Err(_) => 0,
    };
    state_at(FIRST_LINE, first, NO_REFUSAL, lengths)
}
