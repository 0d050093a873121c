// Single characters: the space between fields, the LF that ends a line, and the others with a place of their own.
ghost use Rattle.std.specs.Prelude.{◌≡◌};
ghost use Rattle.text.specs.Expected.{expected_at};

// The position past a character, or the position where it is missing.
#[tactic(auto, unfolding(crate::specs::Expected::expected_at))]
pub fn read_expected(s: &[u8], at: usize, mark: u8) -> Result<usize, usize>
    ensures { result ≡ expected_at s.now at mark }
{
    if at < s.len() && s[at] == mark {
        Ok(at + 1)
    } else {
        Err(at)
    }
}
