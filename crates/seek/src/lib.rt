// What the recursion over the tree finds: the first p-stable leaf from a word on: definitions and laws, and no function.
#![tactic(auto)]

// No node is a p-stable leaf; the node limit ended the search before one.
pub const NONE: u32 = 0xffff_ffff;

pub const SPENT: u32 = 0xffff_fffe;
