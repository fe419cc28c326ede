// The summary: which values each atom takes in a list of words, and which atoms are settled.
#![tactic(auto)]

ghost use Rattle.std.specs.Prelude.{◌≡◌};
ghost use Rattle.sets.specs.Lists.{every, tabulate};
ghost use Rattle.program.specs.Values.{is_word};
ghost use Rattle.summary.specs.Summary.{shown_at, settled_at, refused_summary, summary_of};

use program::{Program, Refusal};
use std::array;
use summary::Summary;

// Whether no word has a bit at 2n or above.
fn all_words(words: &[u32], n: usize) -> bool
    ensures { result ≡ every (is_word n) words.now }
{
    words.iter().all(|w| table_fields::is_word(n, *w))
}

fn occurring_of(words: &[u32], n: usize) -> [u8; program::MOST_ATOMS]
    ensures { result ≡ tabulate (shown_at n words.now) 12 }
{
    array::from_fn(|i| summary_values::shown_at(words, n, i))
}

fn settled_of(shown: &[u8; program::MOST_ATOMS]) -> [bool; program::MOST_ATOMS]
    ensures { result ≡ tabulate (settled_at shown.now) 12 }
{
    array::from_fn(|i| summary_values::is_settled(shown[i]))
}

fn refused(refusal: Refusal) -> Summary
    ensures { result ≡ refused_summary refusal }
{
    Summary {
        verdict: Err(refusal),
        occurring: [0; program::MOST_ATOMS],
        settled: [false; program::MOST_ATOMS],
    }
}

// Which values each atom of `p` takes in the words, or refusal 9 or 10.
pub fn summarize(p: Program, words: &[u32]) -> Summary
    ensures { result ≡ summary_of p words.now }
{
    if !validity::is_valid(p) {
        return refused(Refusal::InvalidProgram);
    }
    let n = p.atom_count;
    if !all_words(words, n) {
        return refused(Refusal::OutsideWord);
    }
    let occurring = occurring_of(words, n);
    let settled = settled_of(&occurring);
    Summary {
        verdict: Ok(()),
        occurring,
        settled,
    }
}
