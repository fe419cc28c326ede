// Whether an answer is as expected, and where a slice that was lent holds another word than it should.
#![tactic(auto)]

ghost use Rattle.std.specs.Prelude.{◌≡◌, get_or};
ghost use Rattle.answers.specs.Answers.{allowing, agreeing, held_at, first_other, difference_of};

use answers::{Answer, Difference};

fn allows(expected: u64, found: u64) -> bool
    ensures { result ≡ allowing expected found }
{
    expected == answers::ANY || expected == found
}

// Whether an answer is as expected.
pub fn agree(expected: Answer, found: Answer) -> bool
    ensures { result ≡ agreeing expected found }
{
    expected.outcome == found.outcome
        && allows(expected.first, found.first)
        && allows(expected.second, found.second)
}

// ---- what was lent
fn word_at(words: &[u32], k: usize) -> u64
    ensures { result ≡ get_or words.now k 4294967295 }
{
    u64::from(words.get(k).copied().unwrap_or(answers::FREE))
}

#[tactic(auto, unfolding(answers::specs::Answers::held_at))]
fn held_at(list: &[u32; answers::PLACES], k: usize) -> u64
    ensures { result ≡ held_at list.now k }
{
    u64::from(list.get(k).copied().unwrap_or(answers::FREE))
}

// The first place where the list holds another word than it should; its length where there is none.
fn first_other(list: &[u32; answers::PLACES], words: &[u32]) -> usize
    ensures { result ≡ first_other words.now list.now }
{
    for k in 0..answers::PLACES {
        if held_at(list, k) != word_at(words, k) {
            return k;
        }
    }
    answers::PLACES
}

// What a list should hold, the words and free places behind them, and what it holds, at the first place where these differ; behind the list where they do not.
pub fn list_difference(list: &[u32; answers::PLACES], words: &[u32]) -> Difference
    ensures { result ≡ difference_of words.now list.now }
{
    let k = first_other(list, words);
    Difference {
        expected: answers_made::made(answers::NUMBER, word_at(words, k), k as u64),
        found: answers_made::made(answers::NUMBER, held_at(list, k), k as u64),
    }
}
