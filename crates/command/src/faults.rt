// Where a line is at fault.
ghost use Rattle.std.specs.Prelude.{◌≡◌};
ghost use Rattle.command.specs.Faults.{fault_of};

use crate::Command;

// The position of the fault in the line.
#[tactic(auto, unfolding(crate::specs::Faults::fault_of))]
pub fn fault_of(command: Command) -> Option<usize>
    ensures { result ≡ fault_of command }
{
    match command {
        Command::Bad(p) => Some(p),
        _ => None,
    }
}
