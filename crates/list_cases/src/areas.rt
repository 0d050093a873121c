// The areas that lines of input lend.
use records::buffers::Buffer;
use records::fields::{field, number};
use state::limits::BLOCK_BYTES;

fn byte_of(letter: u8) -> u8 {
    if letter == b'0' { 0 } else { letter }
}

// An area with a block for each letter, as far as there is room.
pub(crate) fn fill_blocks(area: &mut Buffer<'_>, letters: &[u8]) {
    area.clear();
    for letter in letters {
        area.more(BLOCK_BYTES).fill(byte_of(*letter));
    }
}

// The same by a line of input, which may give a length of its own.
pub(crate) fn fill_area(area: &mut Buffer<'_>, line: &[u8]) {
    fill_blocks(area, field(line, 1));
    if !field(line, 2).is_empty() {
        area.set_length(number(line, 2));
    }
}
