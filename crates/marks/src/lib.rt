// The marks of a source's places, a bit each: whether the place is taken. Place p is bit p / MARK_BYTES of byte p % MARK_BYTES, so the
// places of a short source have a byte each.
#![tactic(auto)]

ghost use Rattle.std.specs.Prelude.{◌≡◌, length};
ghost use Rattle.marks.specs.Marks.{mark_bytes, is_free, taking, cleared};

use state::limits::MOST_AREA_BLOCKS;

const PLACES_PER_BYTE: usize = 8;

pub const MARK_BYTES: usize = MOST_AREA_BLOCKS / PLACES_PER_BYTE;

const PLACES: usize = PLACES_PER_BYTE * MARK_BYTES;

// No place below n is marked any more.
pub fn clear_marks(marks: &mut [u8; MARK_BYTES], n: usize)
    ensures sized { length marks.old ≡ mark_bytes }
    ensures clear { marks.new ≡ cleared marks.old n }
{
    marks[..n.min(MARK_BYTES)].fill(0);
}

// Marks a place; false, and nothing is changed, where it is marked already or there is no such place.
pub fn take_place(marks: &mut [u8; MARK_BYTES], p: usize) -> bool
    ensures answer { result ≡ is_free marks.old p }
    ensures marked { marks.new ≡ taking marks.old p }
{
    if PLACES <= p {
        return false;
    }
    let row = p % MARK_BYTES;
    let bit = p / MARK_BYTES;
    if (marks[row] >> bit) & 1 != 0 {
        return false;
    }
    marks[row] |= 1 << bit;
    true
}
