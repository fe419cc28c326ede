// The three demands that the members voted, as definitions, and a theorem for each.
#![tactic(auto)]
