// The position in the source, and numbers with a sign that move it.
ghost use Rattle.std.specs.Prelude.{◌≡◌, ◌≤◌, true, false};
ghost use Rattle.std.specs.Option.{MatchOption};
ghost use Rattle.patch.specs.Position.{last_position, can_move, moved};

// The top bit of eight bytes.
pub(crate) const SIGN_BIT: usize = 0x8000000000000000;

const FARTHEST: usize = 2147483647;

// Position 0. Positions are counted from the farthest one back, so that none is negative.
pub(crate) const ORIGIN: usize = FARTHEST;

const LAST_POSITION: usize = ORIGIN + FARTHEST;

// The position after a move by a number, where it stays within its bounds.
#[tactic(auto, unfolding(crate::specs::Position::can_move, crate::specs::Position::moved))]
pub(crate) fn move_by(position: usize, n: usize) -> Option<usize>
    requires { position ≤ last_position }
    ensures { MatchOption result (can_move position n ≡ false)
        (λ next. (can_move position n ≡ true) × (next ≡ moved position n) × (next ≤ last_position)) }
{
    if SIGN_BIT <= n {
        position.checked_sub(n - SIGN_BIT)
    } else if n <= LAST_POSITION - position {
        Some(position + n)
    } else {
        None
    }
}
