// A machine that takes bytes one by one, for any machine: definitions and laws only.
#![tactic(auto)]
