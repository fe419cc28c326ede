// A set of members closed under the operator of a positive program: definitions and laws, and no function.
#![tactic(auto)]
