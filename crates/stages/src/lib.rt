// The run of the stages of a positive program on 64-bit words, and the minimal models in the stage that ends it: definitions and laws, and no function.
#![tactic(auto)]
