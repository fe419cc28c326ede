// Clauses that lie in one array, which a recursion hands down as one reference, and what the test of a leaf asks: definitions and laws, and no function.
#![tactic(auto)]

// The heads from place 0 on, the bodies, the not-parts, and how many words that are.
pub const BODIES: usize = program::MOST_CLAUSES;

pub const NAFS: usize = 2 * program::MOST_CLAUSES;

pub const WORDS: usize = 3 * program::MOST_CLAUSES;
