// What a summary shows: which values each atom takes in a list of words, and which atoms are settled: definitions and theorems, and no function.
#![tactic(auto)]

use program::Verdict;

// Bit v of `occurring[i]`: atom i takes the value v in some word.
#[derive(Clone, Copy)]
pub struct Summary {
    pub verdict: Verdict,
    pub occurring: [u8; program::MOST_ATOMS],
    pub settled: [bool; program::MOST_ATOMS],
}
