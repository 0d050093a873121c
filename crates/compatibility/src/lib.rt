// Which lists answer as they did while an empty range was good, and which no longer open. Definitions and theorems alone.
#![tactic(auto)]
