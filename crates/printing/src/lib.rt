// What several words say of a table that was read, at the front of a slice with room for it: the line of a refusal, and the models; how much room and how long a list they have.
#![tactic(auto)]

ghost use Rattle.std.specs.Prelude.{◌≤◌, length};
ghost use Rattle.lists.specs.Bytes.{Wrote};
ghost use Rattle.wording.specs.Printed.{refused_line};
ghost use Rattle.listings.specs.Listing.{listing};
ghost use Rattle.printing.specs.Ready.{most_bytes, ReadyToList};

use program::Program;

// The report's limit of nodes, which no search of a table that was read exceeds.
pub const NODE_LIMIT: u64 = 33_554_431;

// The most places of a list.
pub const MOST_PLACES: usize = 4096;

// The line of a refusal, of a book or of a call.
pub fn put_refused(number: u8, out: &mut [u8]) -> usize
    requires { most_bytes ≤ length out.old }
    ensures { Wrote (refused_line number) out.old result out.new }
{
    wording::put_refused_line(out, u64::from(number))
}

// The names line, and a line for each of the words, which are at most `MOST_PLACES`.
pub fn put_models(p: Program, words: &[u32], out: &mut [u8]) -> usize
    requires { ReadyToList p words.now out.old }
    ensures { Wrote (listing p words.now) out.old result out.new }
{
    listings::put_listing(out, &p.atom_names, p.atom_count, words, words.len())
}
