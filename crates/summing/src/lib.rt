// What `summary` says of a table that was read, at the front of a slice with room for it.
#![tactic(auto)]

ghost use Rattle.lists.specs.Bytes.{Wrote};
ghost use Rattle.printing.specs.Ready.{Ready};
ghost use Rattle.summing.specs.Texts.{summary_lines, summarized_text, summary_text};

use printing::{MOST_PLACES, NODE_LIMIT};
use program::Program;
use summary::Summary;

// The names line, four lines of the values that occur, and the line of the settled names.
fn put_lines(p: Program, s: Summary, out: &mut [u8]) -> usize
    requires { Ready p out.old }
    ensures { Wrote (summary_lines p s) out.old result out.new }
{
    summarylines::put_summary(out, &p.atom_names, p.atom_count, &s.occurring, &s.settled)
}

// The summary of the words.
fn put_summarized(p: Program, words: &[u32], out: &mut [u8]) -> usize
    requires { Ready p out.old }
    ensures { Wrote (summarized_text words.now p) out.old result out.new }
{
    let s = summarizer::summarize(p, words);
    match s.verdict {
        Ok(()) => put_lines(p, s, out),
        Err(refusal) => printing::put_refused(u8::from(refusal), out),
    }
}

// The summary of the models of a search as the report's, on the day.
pub fn put_summary(p: Program, day: u16, out: &mut [u8]) -> usize
    requires { Ready p out.old }
    ensures { Wrote (summary_text day p) out.old result out.new }
{
    let mut models = [0u32; MOST_PLACES];
    let a = search::search(p, day, NODE_LIMIT, &mut models);
    put_summarized(p, &models[..a.written], out)
}
