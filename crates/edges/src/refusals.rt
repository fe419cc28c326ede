// A text is refused by the number, with the all-zero table, or taken where the number is 0.
use crate::saying;
use answers::Source;
use program::{ALL_NAME_BYTES, MOST_CLAUSES, Program};
use std::io;

fn is_zero_table(p: Program) -> bool {
    p.atom_count == 0
        && p.atom_names == [0; ALL_NAME_BYTES]
        && p.clause_count == 0
        && p.heads == [0; MOST_CLAUSES]
        && p.bodies == [0; MOST_CLAUSES]
        && p.nafs == [0; MOST_CLAUSES]
        && p.firsts == [0; MOST_CLAUSES]
        && p.lasts == [0; MOST_CLAUSES]
        && !p.held.in_use
        && (p.held.head | p.held.body | p.held.naf) == 0
        && (p.held.first | p.held.last) == 0
        && !p.dated
}

pub fn agrees(rt: &impl Print, text: &[u8], refusal: u64) -> io::Result<bool> {
    let read = reader::read_program(text);
    let found = answers_made::of_verdict(
        answers_made::by_number(read.verdict),
        u64::from(is_zero_table(read.program)),
    );
    let expected = answers_made::made(refusal, u64::from(refusal != 0), 0);
    saying::agree(rt, Source::Reader, expected, found)
}
