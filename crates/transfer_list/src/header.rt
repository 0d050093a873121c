// The header of a transfer list.
ghost use Rattle.std.specs.Prelude.{◌≡◌, Ok, Err};
ghost use Rattle.text.specs.Read.{on_read};
ghost use Rattle.state.specs.Refusals.{number_of, refusal_from, checked_refusal};
ghost use Rattle.state.specs.States.{refusing};
ghost use Rattle.transfer_list.specs.Header.{fault_at, header_line_at, header_of, is_area, are_areas, header_refusal, start_refusal};

use state::Lengths;
use state::limits::{
    BLOCK_BYTES, MOST_AREA_BLOCKS, MOST_IMAGE_BLOCKS, MOST_LIST_BYTES, MOST_RESULT_BLOCKS,
    MOST_STASHES,
};
use state::refusals::{Reason, Refused};
use text::Read;
use text::expected::read_expected;
use text::number::read_number;

// The version that opens.
const VERSION_3: u32 = 3;

// The number of the first command line.
pub(crate) const FIRST_LINE: usize = 5;

// The version, the blocks that line 2 counts, the most stashes and the most blocks held at once, and where the command lines start.
#[derive(Clone, Copy)]
pub struct Header {
    pub version: u32,
    pub total: u32,
    pub stashes: u32,
    pub blocks: u32,
    pub first: usize,
}

// The line that is at fault, and the byte of its fault.
#[derive(Clone, Copy)]
pub struct BadHeader {
    pub line: usize,
    pub byte: usize,
}

// A number and an LF.
#[tactic(auto, unfolding(crate::specs::Header::header_line_at))]
fn read_header_line(s: &[u8], at: usize) -> Read<u32>
    ensures { result ≡ header_line_at s.now at }
{
    let (v, i) = read_number(s, at)?;
    let next = read_expected(s, i, b'\n')?;
    Ok((v, next))
}

// The line of that number: 3 is refused at its fault.
fn read_numbered(s: &[u8], at: usize, line: usize) -> Result<(u32, usize), BadHeader>
    ensures { result ≡ on_read (header_line_at s.now at) (λ v next. Ok (v, next)) (λ p. Err (fault_at line p)) }
{
    match read_header_line(s, at) {
        Ok(read) => Ok(read),
        Err(byte) => Err(BadHeader { line, byte }),
    }
}

#[tactic(auto, unfolding(crate::specs::Header::header_of))]
pub fn read_header(s: &[u8]) -> Result<Header, BadHeader>
    ensures { result ≡ header_of s.now }
{
    let (version, i) = read_numbered(s, 0, 1)?;
    let (total, j) = read_numbered(s, i, 2)?;
    let (stashes, k) = read_numbered(s, j, 3)?;
    let (blocks, first) = read_numbered(s, k, 4)?;
    Ok(Header {
        version,
        total,
        stashes,
        blocks,
        first,
    })
}

// Whole blocks, and not over the most.
fn is_area(most: usize, bytes: usize) -> bool
    ensures { result ≡ is_area most bytes }
{
    bytes % BLOCK_BYTES == 0 && bytes / BLOCK_BYTES <= most
}

#[tactic(auto, unfolding(crate::specs::Header::are_areas))]
fn are_areas(lengths: Lengths) -> bool
    ensures { result ≡ are_areas lengths }
{
    is_area(MOST_IMAGE_BLOCKS, lengths.image)
        && is_area(MOST_AREA_BLOCKS, lengths.stash)
        && is_area(MOST_AREA_BLOCKS, lengths.work)
        && is_area(MOST_RESULT_BLOCKS, lengths.result)
}

fn refused(reason: Reason, line: usize) -> Refused
    ensures { refusal_from result ≡ refusing (number_of reason) line }
{
    Refused {
        reason,
        line,
        byte: 0,
    }
}

#[tactic(auto, unfolding(crate::specs::Header::header_refusal))]
fn check_header(lengths: Lengths, read: Result<Header, BadHeader>) -> Result<(), Refused>
    ensures { checked_refusal result ≡ header_refusal lengths read }
{
    let h = match read {
        Ok(h) => h,
        Err(bad) => {
            return Err(Refused {
                reason: Reason::HeaderForm,
                line: bad.line,
                byte: bad.byte,
            });
        }
    };
    if h.version != VERSION_3 {
        return Err(refused(Reason::OtherVersion, 1));
    }
    if MOST_STASHES < h.stashes as usize {
        return Err(refused(Reason::HeaderLimit, 3));
    }
    if lengths.stash / BLOCK_BYTES < h.blocks as usize {
        return Err(refused(Reason::HeaderLimit, 4));
    }
    Ok(())
}

// What is refused before the first command line.
#[tactic(auto, unfolding(crate::specs::Header::start_refusal, crate::specs::Header::header_refusal))]
pub fn check_start(s: &[u8], lengths: Lengths) -> Result<(), Refused>
    ensures { checked_refusal result ≡ start_refusal s.now lengths }
{
    if !are_areas(lengths) {
        return Err(refused(Reason::AreaSize, 0));
    }
    if MOST_LIST_BYTES < s.len() {
        return Err(refused(Reason::ListLength, 0));
    }
    check_header(lengths, read_header(s))
}
