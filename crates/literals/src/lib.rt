// The members of a word, literals or the rows of a set, and words as sets of them.
#![tactic(auto)]

ghost use Rattle.std.specs.Prelude.{◌≡◌, ◌<◌};
ghost use Rattle.std.specs.Int.Count.{count_trailing_zeros};
ghost use Rattle.sets.specs.Words.{inside, put};
ghost use Rattle.std.specs.Iterator.{at_most};
ghost use Rattle.literals.specs.Literals.{Lowest};
ghost use Rattle.literals.specs.Members.{StepsDown};

// Whether `a` is a subset of `b`.
pub fn subset(a: u64, b: u64) -> bool
    ensures { result ≡ inside a b }
{
    a & b == a
}

// `j` with the literal `t`.
pub fn with(j: u64, t: u32) -> u64
    requires { t < 64 }
    ensures { result ≡ put t j }
{
    j | (1 << t)
}

// The lowest literal of `s`.
pub fn lowest(s: u64) -> u32
    ensures { result ≡ count_trailing_zeros 64 s }
{
    u64::trailing_zeros(s)
}

// The same of a set that has a member, as a place.
pub fn lowest_place(s: u64) -> usize
    requires { s ≡ 0 → ⊥ }
    ensures { Lowest s result }
{
    lowest(s) as usize
}

// ---- the members of a word, lowest first
// Those that are still to come.
#[derive(Clone, Copy)]
pub struct MembersLeft {
    rest: u64,
}

// The members of `s`.
pub fn members(s: u64) -> MembersLeft
    ensures { result.rest ≡ s }
{
    MembersLeft { rest: s }
}

impl Iterator for MembersLeft {
    type Item = u32;

    ghost next_gives = { StepsDown };

    ghost remaining = { λ m. at_most m.rest };

    fn next(&mut self) -> Option<u32> {
        if self.rest == 0 {
            return None;
        }
        let t = lowest(self.rest);
        self.rest &= self.rest - 1;
        Some(t)
    }
}
