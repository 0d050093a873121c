// The chunks of a file, written.
ghost use Rattle.std.specs.Prelude.{◌≡◌, ◌+◌, ◌*◌, ◌/◌, ◌%◌, ◌≤◌, length, set};
ghost use Rattle.state.specs.Limits.{block_bytes};
ghost use Rattle.sparse_file.specs.Header.{total_blocks};
ghost use Rattle.sparse_file.specs.Chunk.{fill_bytes, body_bytes};
ghost use Rattle.sparse_file.specs.Chunks.{chunks_of};
ghost use Rattle.sparse.specs.Loading.{repeated, chunk_over, chunks_over};

use copy::copy_in;
use sparse_file::chunk::{Chunk, Kind, read_chunk};
use sparse_file::header::{HEADER_BYTES, total_blocks, total_chunks};
use state::limits::BLOCK_BYTES;

fn put_four(part: &mut [u8], at: usize, a: u8, b: u8, c: u8, d: u8)
    requires { at + fill_bytes ≤ length part.old }
    ensures { part.new ≡ set (set (set (set part.old at a) (at + 1) b) (at + 2) c) (at + 3) d }
{
    part[at] = a;
    part[at + 1] = b;
    part[at + 2] = c;
    part[at + 3] = d;
}

// Four bytes over all of a part, again and again. Sixteen stores in a row are compiled to one; with the four bytes in an array they are not, and
// a fill took 1.5 of the time.
fn fill_in(part: &mut [u8], bytes: &[u8])
    requires { (length part.old % (4 * fill_bytes) ≡ 0) × (length bytes.now ≡ fill_bytes) }
    ensures { part.new ≡ repeated (length part.old / fill_bytes) bytes.now }
{
    let a = bytes[0];
    let b = bytes[1];
    let c = bytes[2];
    let d = bytes[3];
    let mut i = 0;
    while i < part.len() {
        put_four(part, i, a, b, c, d);
        put_four(part, i + 4, a, b, c, d);
        put_four(part, i + 8, a, b, c, d);
        put_four(part, i + 12, a, b, c, d);
        i += 16;
    }
}

fn write_chunk(file: &[u8], image: &mut [u8], chunk: Chunk)
    requires body_in_file { (chunk.body + body_bytes chunk.kind chunk.blocks ≡ chunk.next) × (chunk.next ≤ length file.now) }
    requires blocks_in_image { block_bytes * (chunk.first + chunk.blocks) ≤ length image.old }
    ensures { image.new ≡ chunk_over file.now chunk image.old }
{
    let start = BLOCK_BYTES * chunk.first as usize;
    let end = start + BLOCK_BYTES * chunk.blocks as usize;
    let body = &file[chunk.body..chunk.next];
    match chunk.kind {
        Kind::Raw => copy_in(&mut image[start..end], body),
        Kind::Fill => fill_in(&mut image[start..end], body),
        Kind::DontCare => {}
    }
}

// The chunks over an image of the header's blocks, one after the other, up to one that is refused: of a checked file none is.
pub(crate) fn write_chunks(file: &[u8], image: &mut [u8])
    requires { length image.old ≡ block_bytes * total_blocks file.now }
    ensures { image.new ≡ chunks_over file.now (chunks_of file.now).list image.old }
{
    let total = total_blocks(file);
    let mut at = HEADER_BYTES;
    let mut first = 0;
    'chunks: for _ in 0..total_chunks(file) {
        let Ok(chunk) = read_chunk(file, at, first, total) else {
            return;
        };
        write_chunk(file, image, chunk);
        at = chunk.next;
        first += chunk.blocks;
    }
}
