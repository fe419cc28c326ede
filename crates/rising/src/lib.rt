// Sets of 64-bit words in lent slices, rising in one run or in two: definitions and laws, and no function.
#![tactic(auto)]
