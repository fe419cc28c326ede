// The epistemic transform and the stages over any atoms: definitions and theorems, and no function.
#![tactic(auto)]
