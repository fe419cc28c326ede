// What the check of one candidate answers, and that this is Definition 3.1: definitions and theorems, and no function.
#![tactic(auto)]

// What the check of a candidate finds.
#[derive(Clone, Copy)]
pub enum Checked {
    Violated(u32),
    Smaller(u32),
    Stable,
}
