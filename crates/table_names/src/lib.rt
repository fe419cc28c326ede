// The form of a name.
#![tactic(auto)]

ghost use Rattle.std.specs.Prelude.{◌≡◌, take};
ghost use Rattle.sets.specs.Lists.{every};
ghost use Rattle.program.specs.Names.{is_letter, is_plain, is_name};

fn is_letter(x: u8) -> bool
    ensures { result ≡ is_letter x }
{
    matches!(x, b'a'..=b'z')
}

// Whether `x` is one of a-z and 0-9.
pub fn is_plain(x: u8) -> bool
    ensures { result ≡ is_plain x }
{
    matches!(x, b'a'..=b'z' | b'0'..=b'9')
}

fn all_plain(s: &[u8]) -> bool
    ensures { result ≡ every is_plain s.now }
{
    s.iter().all(|x| is_plain(*x))
}

fn letter_first(s: &[u8]) -> bool
    ensures { result ≡ every is_letter (take 1 s.now) }
{
    s.is_empty() || is_letter(s[0])
}

// Whether `s` has the form of a name.
#[tactic(auto, unfolding(program::specs::Names::is_name))]
pub fn is_name(s: &[u8]) -> bool
    ensures { result ≡ is_name s.now }
{
    !s.is_empty() && s.len() <= program::NAME_BYTES && all_plain(s) && letter_first(s)
}
