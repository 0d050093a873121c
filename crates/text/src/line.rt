// Lines of the text.
ghost use Rattle.std.specs.Prelude.{◌≡◌, ◌==◌, ◌<◌, length, position};
ghost use Rattle.text.specs.Line.{line_at, lfs_in, line_number};

// LFs are counted in parts of this length: short enough that a part's count is a byte.
const PART_BYTES: usize = 128;

// Where the first LF is.
fn first_feed(s: &[u8]) -> Option<usize>
    ensures { result ≡ position (λ b. b == 10) s.now }
{
    s.iter().position(|b| *b == b'\n')
}

// The part of the text from a position up to the first LF, with it, or up to the text's end.
pub fn line_at(s: &[u8], at: usize) -> &[u8]
    ensures { result.now ≡ line_at s.now at }
{
    let rest = &s[at.min(s.len())..];
    match first_feed(rest) {
        Some(i) => &rest[..i + 1],
        None => rest,
    }
}

// How many LFs a part has. A count in a byte lets the loop compile to many bytes at a step.
fn part_feeds(part: &[u8]) -> u8
    requires { length part.now < 256 }
    ensures { result ≡ lfs_in part.now }
{
    let mut n: u8 = 0;
    for b in part {
        n += u8::from(*b == b'\n');
    }
    n
}

// How many LFs there are: the full parts', and those of the bytes left.
#[tactic(auto, using(crate::proofs::LineLaws::lfs_most))]
fn line_feeds(s: &[u8]) -> usize
    ensures { result ≡ lfs_in s.now }
{
    let mut n: usize = 0;
    let mut rest = s;
    // `chunks` took 1.05 of the time.
    while let Some((part, left)) = rest.split_at_checked(PART_BYTES) {
        n += part_feeds(part) as usize;
        rest = left;
    }
    n + part_feeds(rest) as usize
}

// The number of the line that starts at a position; lines count from 1.
#[tactic(auto, using(crate::proofs::LineLaws::lfs_within, crate::proofs::LineLaws::take_min), unfolding(crate::specs::Line::line_number))]
pub fn line_number(s: &[u8], at: usize) -> usize
    ensures { result ≡ line_number s.now at }
{
    1 + line_feeds(&s[..at.min(s.len())])
}
