// The table of stashes after a line.
ghost use Rattle.std.specs.Prelude.{◌≡◌};
ghost use Rattle.rules.specs.Held.{table_after};

use command::{Command, Line};
use state::stashes::Table;

// Holds the stash of a `stash`, where there is room for it, and drops that of a `free`.
#[tactic(auto, unfolding(crate::specs::Held::table_after))]
pub fn hold_after(table: &mut Table, line: Line)
    ensures { table.new ≡ table_after table.old line.hash line.command }
{
    match line.command {
        Command::Stash(set) => table.hold(line.hash, set.blocks),
        Command::Free => {
            if let Some(j) = table.find(line.hash) {
                table.release(j);
            }
        }
        _ => {}
    }
}
