// Commands that fill an area before they write from it.
ghost use Rattle.std.specs.Prelude.{◌≡◌};
ghost use Rattle.command.specs.Filling.{fills};

use crate::Command;

#[tactic(auto, unfolding(crate::specs::Filling::fills))]
pub fn fills(command: Command) -> bool
    ensures { result ≡ fills command }
{
    match command {
        Command::Move { .. } => true,
        Command::Bsdiff { .. } => true,
        Command::Stash(_) => true,
        _ => false,
    }
}
