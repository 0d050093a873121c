// Numbers of two, four and eight bytes, the lowest byte first. A reader for each width: `from_le_bytes` is no trait's.
#![tactic(auto)]

ghost use Rattle.std.specs.Prelude.{◌≡◌, ◌+◌, ◌≤◌, ◌<◌, length, take, drop};
ghost use Rattle.std.specs.Option.{MatchOption};
ghost use Rattle.little_endian.specs.LittleEndian.{two_at, four_at, eight_at};

// The bytes at a position, where they are all there.
fn bytes_at<const N: usize>(s: &[u8], at: usize) -> Option<[u8; N]>
    ensures { MatchOption result (length s.now < at + N) (λ bytes. (at + N ≤ length s.now) × (bytes ≡ take N (drop at s.now))) }
{
    if s.len() < N || s.len() - N < at {
        return None;
    }
    s[at..at + N].first_chunk().copied()
}

// The number at a position; 0 where its bytes are not all there.
pub fn read_u16(s: &[u8], at: usize) -> u16
    ensures { result ≡ two_at s.now at }
{
    bytes_at(s, at).map_or(0, u16::from_le_bytes)
}

// The same of four bytes.
pub fn read_u32(s: &[u8], at: usize) -> u32
    ensures { result ≡ four_at s.now at }
{
    bytes_at(s, at).map_or(0, u32::from_le_bytes)
}

// The same of eight bytes.
pub fn read_u64(s: &[u8], at: usize) -> u64
    ensures { result ≡ eight_at s.now at }
{
    bytes_at(s, at).map_or(0, u64::from_le_bytes)
}
