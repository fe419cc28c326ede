// What the test of one node is handed, and that the test by columns is the test of the rows: definitions and laws, and no function.
#![tactic(auto)]
