// Which lines are good, and that a fault is reported at the first byte at which none of them could go on. Definitions and theorems alone.
#![tactic(auto)]
