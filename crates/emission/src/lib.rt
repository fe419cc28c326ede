// Clauses put one behind the other into two slices.
#![tactic(auto)]

ghost use Rattle.std.specs.Prelude.{[], ◌∷◌};
ghost use Rattle.emission.specs.Emit.{Emits, Places};

// Puts a clause behind the first `at`.
pub fn push(hs: &mut [u64], bs: &mut [u64], at: usize, head: u64, body: u64) -> usize
    requires { Places (record { head = head; body = body } ∷ []) hs.old bs.old at }
    ensures { Emits (record { head = head; body = body } ∷ []) hs.old bs.old at hs.new bs.new result }
{
    hs[at] = head;
    bs[at] = body;
    at + 1
}
