// What a run writes, and finishing after a cut: definitions and laws only.
#![tactic(auto)]
