// What is meant by a p-stable model, and the sample books that hold the meaning fast: definitions, and no function.
#![tactic(auto)]
