// The rows of a program by column: for each literal and each part the set of the rows that have it there, bit k for row k: definitions and laws, and no function.
#![tactic(auto)]

// The most literals that there are.
pub const LITERALS: usize = 2 * program::MOST_ATOMS;

// The columns of the heads from place 0 on, those of the bodies, those of the not-parts, and how many words that are.
pub const BODIES: usize = LITERALS;

pub const NAFS: usize = 2 * LITERALS;

pub const WORDS: usize = 3 * LITERALS;
