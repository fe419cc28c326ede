// The words of the command line, and what is printed on a book: definitions and laws, and no function.
#![tactic(auto)]

// A word of the command line, with the numbers behind it.
#[derive(Clone, Copy)]
pub enum Command {
    Check(u32),
    Search(u64, usize),
    Fixpoint(usize, usize),
    Summary,
    Write,
    Hold(u32, u32, u32, u16, u16),
    Keep(u32, u32, u32, u16, u16),
}
