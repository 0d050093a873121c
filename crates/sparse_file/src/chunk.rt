// One chunk of a sparse file.
ghost use Rattle.std.specs.Prelude.{◌≡◌, true, false};
ghost use Rattle.std.specs.Option.{MatchOption};
ghost use Rattle.sparse_file.specs.Chunk.{is_known, kind_of, body_bytes, is_formed, is_past, chunk_at};

use crate::header::CHUNK_HEADER_BYTES;
use little_endian::{read_u16, read_u32};
use state::limits::BLOCK_BYTES;
use state::refusals::Reason;

const RAW_TYPE: u16 = 0xCAC1;

const FILL_TYPE: u16 = 0xCAC2;

const DONT_CARE_TYPE: u16 = 0xCAC3;

const CHECKSUM_TYPE: u16 = 0xCAC4;

// Bytes that a fill repeats.
const FILL_BYTES: usize = 4;

#[derive(Clone, Copy, Debug, PartialEq, Eq)]
pub enum Kind {
    Raw,
    Fill,
    DontCare,
}

// Which of the image's blocks a chunk has, where its body lies in the file, and where the next chunk does.
#[derive(Clone, Copy)]
pub struct Chunk {
    pub kind: Kind,
    pub first: u32,
    pub blocks: u32,
    pub body: usize,
    pub next: usize,
}

// The kind of a type, where it is a known one.
#[tactic(auto, unfolding(crate::specs::Chunk::is_known, crate::specs::Chunk::kind_of))]
fn kind_of(tag: u16) -> Option<Kind>
    ensures { MatchOption result (is_known tag ≡ false) (λ kind. (is_known tag ≡ true) × (kind ≡ kind_of tag)) }
{
    match tag {
        RAW_TYPE => Some(Kind::Raw),
        FILL_TYPE => Some(Kind::Fill),
        DONT_CARE_TYPE => Some(Kind::DontCare),
        _ => None,
    }
}

#[tactic(auto, unfolding(crate::specs::Chunk::body_bytes))]
fn body_bytes(kind: Kind, blocks: u32) -> usize
    ensures { result ≡ body_bytes kind blocks }
{
    match kind {
        Kind::Raw => BLOCK_BYTES * blocks as usize,
        Kind::Fill => FILL_BYTES,
        Kind::DontCare => 0,
    }
}

// The kind of a chunk whose header is there, with so many bytes of the file from its start on, where body, type, blocks and total are good.
#[tactic(auto, using(crate::proofs::ChunkLaws::body_bytes_most), unfolding(crate::specs::Chunk::is_formed))]
fn formed_kind(room: usize, tag: u16, blocks: u32, bytes: usize) -> Option<Kind>
    ensures { MatchOption result (is_formed room tag blocks bytes ≡ false)
        (λ kind. (is_formed room tag blocks bytes ≡ true) × (kind ≡ kind_of tag)) }
{
    let kind = kind_of(tag)?;
    if room < bytes || blocks == 0 || bytes != CHUNK_HEADER_BYTES + body_bytes(kind, blocks) {
        return None;
    }
    Some(kind)
}

fn is_past(first: u32, blocks: u32, total: u32) -> bool
    ensures { result ≡ is_past first blocks total }
{
    (total as usize) < first as usize + blocks as usize
}

// The chunk at a position, with the blocks of all chunks before it and the blocks of the image.
#[tactic(auto, unfolding(crate::specs::Chunk::chunk_at))]
pub fn read_chunk(file: &[u8], at: usize, first: u32, total: u32) -> Result<Chunk, Reason>
    ensures { result ≡ chunk_at file.now at first total }
{
    let room = file.len().saturating_sub(at);
    if room < CHUNK_HEADER_BYTES {
        return Err(Reason::SparseChunk);
    }
    let tag = read_u16(file, at);
    if tag == CHECKSUM_TYPE {
        return Err(Reason::SparseChecksum);
    }
    let blocks = read_u32(file, at + 4);
    let bytes = read_u32(file, at + 8) as usize;
    let Some(kind) = formed_kind(room, tag, blocks, bytes) else {
        return Err(Reason::SparseChunk);
    };
    if is_past(first, blocks, total) {
        return Err(Reason::SparsePastImage);
    }
    Ok(Chunk {
        kind,
        first,
        blocks,
        body: at + CHUNK_HEADER_BYTES,
        next: at + bytes,
    })
}
