// States that a list can have with its areas and its patch data.
#![tactic(auto)]

ghost use Rattle.std.specs.Prelude.{◌≡◌, ◌<◌};
ghost use Rattle.ranges.specs.Ranges.{least_blocks};
ghost use Rattle.state.specs.Stashes.{held_in, blocks_held};
ghost use Rattle.state.specs.Sums.{bound};
ghost use Rattle.possible.specs.Possible.{at_line, can_hold, has_more, can_be_into, can_be_ready, frees_on, can_be_stretched};
ghost use Rattle.possible.specs.Possible.{is_possible, terms_for};

use command::filling::fills;
use command::targets::new_target;
use command::{Command, read_command};
use marks::MARK_BYTES;
use rules::{Terms, check_line};
use state::limits::{BLOCK_BYTES, HASH_BYTES, MOST_STASHES};
use state::stashes::Table;
use state::stretches::is_stretch;
use state::{Lengths, State};
use text::line::{line_at, line_number};
use transfer_list::header::{Header, check_start, read_header};
use transfer_list::terms_of;

// The position is at the start of a command line, and the line number is its own.
#[tactic(auto, unfolding(crate::specs::Possible::at_line))]
fn is_at_line(list: &[u8], h: Header, line: usize, at: usize) -> bool
    ensures { result ≡ at_line list.now h line at }
{
    let last = at.saturating_sub(1);
    h.first <= at && last < list.len() && list[last] == b'\n' && line == line_number(list, at)
}

#[tactic(auto, using(std::proofs::lemmas::Grind::common_steps, crate::proofs::BlockLaws::leb_blocks), unfolding(crate::specs::Possible::can_hold))]
fn can_hold(h: Header, table: &Table) -> bool
    ensures { result ≡ can_hold h table.now }
{
    table.count <= MOST_STASHES
        && !table.holds_twice()
        && !table.holds_empty()
        && table.blocks_before(MOST_STASHES) <= h.blocks as usize
}

// The command takes new data, is good, and has more bytes than n.
#[tactic(auto, unfolding(crate::specs::Possible::has_more))]
fn has_more(terms: Terms, n: usize, command: Command) -> bool
    ensures { result ≡ has_more terms n command }
{
    new_target(command).is_some_and(|set| set.end as usize <= terms.image
        && n / BLOCK_BYTES < set.blocks)
}

#[tactic(auto, unfolding(crate::specs::Possible::can_be_into))]
fn can_be_into(list: &[u8], terms: Terms, at: usize, into: usize) -> bool
    ensures { result ≡ can_be_into least_blocks list.now terms at into }
{
    into == 0 || has_more(terms, into, read_command(line_at(list, at)).command)
}

// The marks are room to check the line in; a state without a ready mark needs none.
#[tactic(auto, unfolding(crate::specs::Possible::can_be_ready, rules::specs::Rules::checked_of))]
fn can_be_ready(list: &[u8], terms: Terms, at: usize, table: &Table, ready: usize) -> bool
    ensures { result ≡ can_be_ready least_blocks list.now terms at (held_in table.now) ready }
{
    if ready == 0 {
        return true;
    }
    let mut marks = [0u8; MARK_BYTES];
    let checked = check_line(line_at(list, at), terms, table, &mut marks);
    checked.refusal.is_ok() && fills(checked.line.command)
}

// A `free` of a held stash, with stretch k to be moved. What is held is below the bound of sums, so that none is cut.
#[tactic(auto, using(std::proofs::lemmas::Grind::common_steps, crate::proofs::BlockLaws::start_fits, crate::proofs::BlockLaws::start_whole, crate::proofs::BlockLaws::all_whole), unfolding(crate::specs::Possible::frees_on, crate::specs::Possible::found_stretch))]
fn frees_on(table: &Table, k: usize, hash: [u8; HASH_BYTES], command: Command) -> bool
    requires { blocks_held (held_in table.now) < bound }
    ensures { result ≡ frees_on (held_in table.now) k hash command }
{
    let Command::Free = command else {
        return false;
    };
    let Some(j) = table.find(hash) else {
        return false;
    };
    let gap = table.blocks(j);
    let start = table.blocks_before(j);
    let all = table.blocks_before(MOST_STASHES);
    is_stretch(gap, all - (start + gap), k)
}

#[tactic(auto, unfolding(crate::specs::Possible::can_be_stretched))]
fn can_be_stretched(list: &[u8], at: usize, table: &Table, stretches: usize) -> bool
    requires { blocks_held (held_in table.now) < bound }
    ensures { result ≡ can_be_stretched least_blocks list.now at (held_in table.now) stretches }
{
    if stretches == 0 {
        return true;
    }
    let line = read_command(line_at(list, at));
    frees_on(table, stretches, line.hash, line.command)
}

// The state is one that this list can have with areas and patch data of these lengths.
#[tactic(auto, using(std::proofs::lemmas::Grind::common_steps, crate::proofs::BlockLaws::held_most), unfolding(crate::specs::Possible::is_possible, crate::specs::Possible::possible_under, crate::specs::Possible::same_lengths))]
pub fn is_possible(list: &[u8], lengths: Lengths, state: &State) -> bool
    ensures { result ≡ is_possible least_blocks list.now lengths state.now }
{
    if state.lengths != lengths || check_start(list, lengths).is_err() {
        return false;
    }
    let Ok(h) = read_header(list) else {
        return false;
    };
    let terms = terms_of(lengths, h);
    is_at_line(list, h, state.line, state.at)
        && can_hold(h, &state.table)
        && can_be_into(list, terms, state.at, state.into)
        && can_be_ready(list, terms, state.at, &state.table, state.ready)
        && can_be_stretched(list, state.at, &state.table, state.stretches)
}

// What the lines are checked against.
#[tactic(auto, unfolding(crate::specs::Possible::terms_for, crate::specs::Possible::terms_under))]
pub fn terms_for(list: &[u8], lengths: Lengths) -> Terms
    ensures { result ≡ terms_for list.now lengths }
{
    match read_header(list) {
        Ok(h) => terms_of(lengths, h),
        Err(_) => Terms {
            image: 0,
            work: 0,
            result: 0,
            patch: 0,
            stashes: 0,
            blocks: 0,
        },
    }
}
