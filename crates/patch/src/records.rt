// One record of a patch: mark, control triple, add bytes, extra bytes.
ghost use Rattle.std.specs.Prelude.{◌≡◌, ◌≤◌, length};
ghost use Rattle.patch.specs.Position.{last_position};
ghost use Rattle.patch.specs.Record.{record_at};

use crate::position::{SIGN_BIT, move_by};
use little_endian::{read_u16, read_u64};

const RECORD_HEADER_BYTES: usize = 26;

// The bytes 43 50 (hex).
const RECORD_MARK: u16 = 0x5043;

// Where a record's add bytes start in the patch, where its extra bytes do and where it ends; the position of its first add byte, and the
// one after it.
#[derive(Clone, Copy)]
pub struct Record {
    pub adds: usize,
    pub extras: usize,
    pub end: usize,
    pub position: usize,
    pub next: usize,
}

// The record at a byte of the patch, with the position before it.
#[tactic(auto, unfolding(crate::specs::Record::record_at))]
pub(crate) fn read_record(patch: &[u8], at: usize, position: usize) -> Option<Record>
    requires { (at ≤ length patch.now) × (position ≤ last_position) }
    ensures { result ≡ record_at patch.now at position }
{
    let left = patch.len() - at;
    if left < RECORD_HEADER_BYTES || read_u16(patch, at) != RECORD_MARK {
        return None;
    }
    let add = read_u64(patch, at + 2) as usize;
    let extra = read_u64(patch, at + 10) as usize;
    let seek = read_u64(patch, at + 18) as usize;
    // A length is not negative, and there is no minus zero.
    if SIGN_BIT <= add || SIGN_BIT <= extra || seek == SIGN_BIT {
        return None;
    }
    // One after the other: a sum of two lengths that were read may not fit.
    let room = left - RECORD_HEADER_BYTES;
    if room < add || room - add < extra {
        return None;
    }
    let middle = move_by(position, add)?;
    let next = move_by(middle, seek)?;
    let adds = at + RECORD_HEADER_BYTES;
    let extras = adds + add;
    let end = extras + extra;
    Some(Record {
        adds,
        extras,
        end,
        position,
        next,
    })
}
