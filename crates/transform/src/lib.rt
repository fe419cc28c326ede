// The epistemic transform of a program on words, and what is listed of its minimal models: definitions and theorems, and no function.
#![tactic(auto)]
