// The operator of a positive program on 64-bit words: what a set gives, and the stage that follows a stage: definitions and laws, and no function.
#![tactic(auto)]
