// What the clause lines of a text say: each line is read once, and tests and table are taken from what it says.
#![tactic(auto)]

ghost use Rattle.std.specs.Prelude.{◌≡◌, map, ◌≤◌, length, drop};
ghost use Rattle.lists.specs.Bytes.{ended};
ghost use Rattle.text.specs.Lines.{is_dated, names};
ghost use Rattle.text.specs.Refusals.{opening_refusal};
ghost use Rattle.text_row.specs.Rows.{line_read};
ghost use Rattle.clauselines.specs.Gathered.{gathered, clauses_of};

use text::NEWLINE;

// What all clause lines say: whether some line breaks the form, whether the values of some line are only zeros, whether the first day of some line is after its last,
// and the columns of words and days.
#[derive(Clone, Copy)]
pub struct ClauseLines {
    pub broken: bool,
    pub zeros: bool,
    pub reversed: bool,
    pub count: usize,
    pub heads: [u32; program::MOST_CLAUSES],
    pub bodies: [u32; program::MOST_CLAUSES],
    pub nafs: [u32; program::MOST_CLAUSES],
    pub firsts: [u16; program::MOST_CLAUSES],
    pub lasts: [u16; program::MOST_CLAUSES],
}

// What the lines from `from` on say for `n` names.
fn gather(text: &[u8], from: usize, n: usize, dated: bool) -> ClauseLines
    requires { (n ≤ 12) × (length (ended 10 (drop from text.now)) ≤ 64) }
    ensures { result ≡ gathered (map (line_read dated n) (ended 10 (drop from text.now))) }
{
    let mut broken = false;
    let mut zeros = false;
    let mut reversed = false;
    let mut count: usize = 0;
    let mut heads = [0u32; program::MOST_CLAUSES];
    let mut bodies = [0u32; program::MOST_CLAUSES];
    let mut nafs = [0u32; program::MOST_CLAUSES];
    let mut firsts = [0u16; program::MOST_CLAUSES];
    let mut lasts = [0u16; program::MOST_CLAUSES];
    let mut at = from;
    let mut e = lists::end_of(text, at, NEWLINE);
    // A `while`: what stands behind the last line break is no line, and a split would give it as one.
    while e < text.len() {
        let line = rows::weigh(text_row::row_of(&text[at..e]), n, dated);
        broken |= !line.holds;
        zeros |= line.zero;
        reversed |= line.reversed;
        heads[count] = line.head;
        bodies[count] = line.body;
        nafs[count] = line.naf;
        firsts[count] = line.first;
        lasts[count] = line.last;
        count += 1;
        at = e + 1;
        e = lists::end_of(text, at, NEWLINE);
    }
    ClauseLines {
        broken,
        zeros,
        reversed,
        count,
        heads,
        bodies,
        nafs,
        firsts,
        lasts,
    }
}

// What the clause lines of a text say, whose bytes and names line are in order; `n` is the number of its names.
pub fn clause_lines(text: &[u8], n: usize, dated: bool) -> ClauseLines
    requires { (opening_refusal text.now ≡ 0) × (n ≡ length (names text.now)) × (dated ≡ is_dated text.now) }
    ensures { result ≡ clauses_of text.now }
{
    let e = lists::end_of(text, 0, NEWLINE);
    gather(text, e + 1, n, dated)
}
