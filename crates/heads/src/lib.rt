// Every set made of a word and one literal of each of some heads: definitions and laws, and no function.
#![tactic(auto)]
