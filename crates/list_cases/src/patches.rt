// Patch data that lines of input lend.
use records::buffers::Buffer;
use records::fields::number;

// The mark and the control triple of a record.
pub(crate) fn put_record(patch: &mut Buffer<'_>, line: &[u8]) {
    patch.append(b"\x43\x50");
    for k in 1..4 {
        patch.append(&number(line, k).to_le_bytes());
    }
}

// One byte so many times.
pub(crate) fn put_bytes(patch: &mut Buffer<'_>, line: &[u8]) {
    let [byte, ..] = number(line, 2).to_le_bytes();
    patch.more(number(line, 1)).fill(byte);
}
