// A file of records: where the parts of a record stand, and the numbers of its line.
// A record is a line with a label, the text of a book, an equals sign, numbers with a space between, and the line's end.
#![tactic(auto)]

ghost use Rattle.std.specs.Prelude.{◌≡◌, ◌≤◌, ◌<◌, length};
ghost use Rattle.records.specs.Records.{behind_of, value_of, RecordAt, NumberAt};

// What stands for a number where there is none.
pub const NO_NUMBER: u64 = 18_446_744_073_709_551_615;

// Where the parts of a record end and begin, where the next record begins, and whether the file's end does not cut this one.
#[derive(Clone, Copy)]
pub struct Record {
    pub label_end: usize,
    pub text: usize,
    pub text_end: usize,
    pub line: usize,
    pub line_end: usize,
    pub next: usize,
    pub whole: bool,
}

// A number of a line, and where the next begins.
#[derive(Clone, Copy)]
pub struct Number {
    pub value: u64,
    pub next: usize,
}

// Where the next part begins, behind the end of one; at the end of all where there is none.
fn behind(end: usize, length: usize) -> usize
    ensures { result ≡ behind_of length end }
{
    if length <= end { length } else { end + 1 }
}

// The record that begins at `at`.
pub fn record_at(file: &[u8], at: usize) -> Record
    requires { at < length file.now }
    ensures { RecordAt file.now at result }
{
    let label_end = lists::end_of(file, at, b'\n');
    let text = behind(label_end, file.len());
    let text_end = lists::end_of(file, text, b'=');
    let line = behind(text_end, file.len());
    let line_end = lists::end_of(file, line, b'\n');
    let next = behind(line_end, file.len());
    Record {
        label_end,
        text,
        text_end,
        line,
        line_end,
        next,
        whole: line_end < file.len(),
    }
}

fn value_of(parsed: Option<u64>) -> u64
    ensures { result ≡ value_of parsed }
{
    match parsed {
        Some(v) => v,
        None => NO_NUMBER,
    }
}

// The number of a line that begins at `at`.
pub fn number_at(line: &[u8], at: usize) -> Number
    requires { at ≤ length line.now }
    ensures { NumberAt line.now at result }
{
    let end = lists::end_of(line, at, b' ');
    let value = value_of(decimal::read_number(&line[at..end], NO_NUMBER));
    Number {
        value: value,
        next: behind(end, line.len()),
    }
}
