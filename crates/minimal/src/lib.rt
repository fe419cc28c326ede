// The minimal ones of the members of a stage that satisfy every clause: definitions and laws, and no function.
#![tactic(auto)]
