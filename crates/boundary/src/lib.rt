// What calls through the exports come to, one after the other: definitions and laws only.
#![tactic(auto)]
