// The target that takes new data.
ghost use Rattle.std.specs.Prelude.{◌≡◌};
ghost use Rattle.command.specs.Targets.{new_target};

use crate::Command;
use ranges::RangeSet;

// The target of a `new`; other commands have none.
#[tactic(auto, unfolding(crate::specs::Targets::new_target))]
pub fn new_target(command: Command) -> Option<RangeSet>
    ensures { result ≡ new_target command }
{
    match command {
        Command::New(set) => Some(set),
        _ => None,
    }
}
