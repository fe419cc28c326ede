// Words as finite sets, lists and least numbers: definitions and laws, and no function.
#![tactic(auto)]
