// What `search` says of a table that was read, at the front of a slice with room for it.
#![tactic(auto)]

ghost use Rattle.std.specs.Prelude.{◌++◌};
ghost use Rattle.lists.specs.Bytes.{Wrote};
ghost use Rattle.wording.specs.Printed.{last_line};
ghost use Rattle.listings.specs.Listing.{listing};
ghost use Rattle.printing.specs.Ready.{Ready, ReadyToList};
ghost use Rattle.printing.specs.Texts.{lent_list};
ghost use Rattle.searching.specs.Texts.{search_text};

use printing::MOST_PLACES;
use program::{Outcome, Program, Refusal};

// The models, and the line of an outcome with the models written and the nodes visited.
fn put_searched(
    p: Program,
    words: &[u32],
    outcome: Result<Outcome, Refusal>,
    m: usize,
    v: u64,
    out: &mut [u8],
) -> usize
    requires { ReadyToList p words.now out.old }
    ensures { Wrote (listing p words.now ++ last_line outcome m v) out.old result out.new }
{
    let a = printing::put_models(p, words, out);
    let b = wording::put_last_line(&mut out[a..], outcome, m as u64, v);
    a + b
}

// A search of `p` on the day in the lent list.
fn put_listed(p: Program, day: u16, node_limit: u64, models: &mut [u32], out: &mut [u8]) -> usize
    requires { ReadyToList p models.old out.old }
    ensures { Wrote (search_text day node_limit models.old p) out.old result out.new }
{
    let a = search::search(p, day, node_limit, models);
    let m = a.written;
    let outcome = a.outcome;
    let v = a.visited;
    put_searched(p, &models[..m], outcome, m, v, out)
}

// A search in a list of so many places; more than `MOST_PLACES` count as that many.
pub fn put_search(p: Program, day: u16, node_limit: u64, places: usize, out: &mut [u8]) -> usize
    requires { Ready p out.old }
    ensures { Wrote (search_text day node_limit (lent_list places) p) out.old result out.new }
{
    let n = lists::least(places, MOST_PLACES);
    let mut models = [0u32; MOST_PLACES];
    put_listed(p, day, node_limit, &mut models[..n], out)
}
