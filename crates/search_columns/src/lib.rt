// The columns of a program's rows, and the rows that mention a literal.
#![tactic(auto)]

ghost use Rattle.std.specs.Prelude.{◌≡◌, ◌≤◌, ◌<◌};
ghost use Rattle.program.specs.Clauses.{clause_at};
ghost use Rattle.columns.specs.Columns.{Column, Columns, mentioned_in};

// The rows among the first `count` that have a literal in one part.
fn column(words: &[u32; program::MOST_CLAUSES], count: usize, literal: usize) -> u64
    requires { (count ≤ 64) × (literal < 24) }
    ensures { Column words.now count literal result }
{
    let mut rows = 0;
    for k in 0..count {
        if (words[k] >> literal) & 1 != 0 {
            rows |= 1 << k;
        }
    }
    rows
}

// The columns of the first `count` rows.
pub fn columns<'a>(
    heads: &'a [u32; program::MOST_CLAUSES],
    bodies: &'a [u32; program::MOST_CLAUSES],
    nafs: &'a [u32; program::MOST_CLAUSES],
    count: usize,
) -> [u64; columns::WORDS]
    requires { count ≤ 64 }
    ensures { Columns (clause_at heads.now bodies.now nafs.now) count result }
{
    let mut columns = [0u64; columns::WORDS];
    for literal in 0..columns::LITERALS {
        columns[literal] = column(heads, count, literal);
        columns[columns::BODIES + literal] = column(bodies, count, literal);
        columns[columns::NAFS + literal] = column(nafs, count, literal);
    }
    columns
}

// The rows that mention a literal in any part.
pub fn mentions(columns: &[u64; columns::WORDS], literal: usize) -> u64
    requires { literal < 24 }
    ensures { result ≡ mentioned_in columns.now literal }
{
    columns[literal] | columns[columns::BODIES + literal] | columns[columns::NAFS + literal]
}
