// New data, byte by byte to the ranges of a target.
ghost use Rattle.std.specs.Prelude.{◌≡◌, ◌+◌, ◌-◌, ◌*◌, ◌/◌, ◌≤◌, min, length, take, drop};
ghost use Rattle.ranges.specs.Walk.{blocks_at, AllBelow};
ghost use Rattle.state.specs.Limits.{block_bytes};
ghost use Rattle.updater.specs.Bytes.{put_bytes};

use ranges::{LEAST_AGAIN, read_pair};
use state::limits::BLOCK_BYTES;
use text::number::read_number;

// The piece's bytes from `from` on go to the target's bytes from its byte `into` on, until one of them ends. Gives where the piece was
// left.
pub(crate) fn take_new(
    image: &mut [u8],
    l: &[u8],
    at: usize,
    piece: &[u8],
    from: usize,
    into: usize,
) -> usize
    requires { AllBelow (length image.old / block_bytes) (blocks_at l.now at) × (from ≤ length piece.now) }
    ensures left { result ≡ from + min (length piece.now - from) (block_bytes * length (blocks_at l.now at) - into) }
    ensures put { image.new ≡ put_bytes (blocks_at l.now at) into (take (result - from) (drop from piece.now)) image.old }
{
    let mut i = from;
    let mut skip = into;
    let Ok((count, first)) = read_number(l, at) else {
        return i;
    };
    let mut next = first;
    'ranges: for _ in 0..count / 2 {
        let Ok(((start, end), past)) = read_pair(l, next, LEAST_AGAIN) else {
            return i;
        };
        let size = BLOCK_BYTES * (end - start) as usize;
        if skip < size {
            let base = BLOCK_BYTES * start as usize;
            for byte in &mut image[base + skip..base + size] {
                if i == piece.len() {
                    break 'ranges;
                }
                *byte = piece[i];
                i += 1;
            }
            skip = 0;
        } else {
            skip -= size;
        }
        next = past;
    }
    i
}
