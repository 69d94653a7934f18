// A year table line by line: its numbers are stored in a lent buffer, row behind row.
ghost use Rattle.std.specs.Prelude.{◌≡◌, ◌+◌, ◌≤◌, true, length, take};
ghost use Rattle.std.proofs.lemmas.List.Edits.{sets};
ghost use Rattle.files.specs.File as File;
ghost use Rattle.files.specs.File.{made, begin, well, with_line, with_next, came_as};
ghost use Rattle.files.specs.Inner.{with_input, Makes, Reads};

use conversion::Table;
use fields::Judged;
use lines::Input;
use std::io::Read;

// What is wrong with the line that was read last, or with the file.
#[derive(Clone, Copy)]
pub enum Fault {
    LongLine,
    NoNumber,
    OtherCount,
    TooMany,
    NotRead,
    NotOpened,
}

// Where a reading stands: the number of its line; the table's first line, none while it is awaited; how many numbers are stored; what is wrong, which ends
// the reading.
#[derive(Clone, Copy)]
pub struct Reading {
    pub line: u32,
    pub table: Option<Table>,
    pub count: usize,
    pub fault: Option<Fault>,
}

// Before the first line.
fn first() -> Reading
    ensures { result ≡ begin }
{
    Reading {
        line: 0,
        table: None,
        count: 0,
        fault: None,
    }
}

// Stores a line's thirteen numbers from a place on.
fn store(rows: &mut [u16], at: usize, values: [u16; 13])
    requires { (length values ≡ 13) × (at + 13 ≤ length rows.old) }
    ensures { rows.new ≡ sets rows.old at (take 13 values) }
{
    rows[at..at + 13].copy_from_slice(&values);
}

// The reading with a fault.
fn faulted(r: Reading, fault: Fault) -> Reading
    ensures { result ≡ File.faulted fault r }
{
    Reading {
        fault: Some(fault),
        ..r
    }
}

// The reading at its next line.
fn numbered(r: Reading) -> Reading
    requires { r.line ≤ 10000 }
    ensures { result ≡ File.numbered r }
{
    Reading {
        line: r.line + 1,
        ..r
    }
}

// The reading with the first line of a table.
fn begun(r: Reading, values: [u16; 13]) -> Reading
    requires { length values ≡ 13 }
    ensures { result ≡ File.begun (take 4 values) r }
{
    let table = Table {
        first_year: values[0],
        year: values[1],
        month: values[2],
        day: values[3],
    };
    Reading {
        table: Some(table),
        ..r
    }
}

// The reading with a row's numbers more.
fn counted(r: Reading) -> Reading
    requires { r.count + 13 ≤ 18446744073709551615 }
    ensures { result ≡ File.counted 13 r }
{
    Reading {
        count: r.count + 13,
        ..r
    }
}

// The reading with one row more.
fn stored(r: Reading, values: [u16; 13], rows: &mut [u16]) -> Reading
    requires { length values ≡ 13 }
    ensures { made result rows.new ≡ File.stored (made r rows.old) (take 13 values) }
{
    let count = r.count;
    if rows.len() < 13 {
        return faulted(r, Fault::TooMany);
    }
    if rows.len() - 13 < count {
        return faulted(r, Fault::TooMany);
    }
    store(rows, count, values);
    counted(r)
}

// How many numbers are wanted in a line.
#[tactic(auto, unfolding(crate::specs::File::wanted))]
fn wanted(awaits: bool) -> usize
    ensures { result ≡ File.wanted awaits }
{
    if awaits { 4 } else { 13 }
}

// The reading with a line's bytes.
fn with_line(r: Reading, rows: &mut [u16], s: &[u8]) -> Reading
    ensures { made result rows.new ≡ with_line (made r rows.old) s.now }
{
    let row = fields::read_row(s);
    let form = row.form;
    let values = row.values;
    let awaits = r.table.is_none();
    match fields::judge(form, wanted(awaits)) {
        Judged::Blank => r,
        Judged::Good => {
            if awaits {
                return begun(r, values);
            }
            stored(r, values, rows)
        }
        Judged::NoNumber => faulted(r, Fault::NoNumber),
        Judged::OtherCount => faulted(r, Fault::OtherCount),
    }
}

// The reading with a line that came: its bytes, unless it was too long.
fn with_next(r: Reading, rows: &mut [u16], long: bool, s: &[u8]) -> Reading
    ensures { made result rows.new ≡ with_next (made r rows.old) (came_as long s.now) }
{
    if 10000 <= r.line {
        return faulted(r, Fault::TooMany);
    }
    let q = numbered(r);
    if long {
        return faulted(q, Fault::LongLine);
    }
    with_line(q, rows, s)
}

// The reading with what the input brought: a line in the lent buffer, or its end.
fn with_input(r: Reading, rows: &mut [u16], input: Input, line: &[u8]) -> Reading
    requires { input.len ≤ length line.now }
    ensures { made result rows.new ≡ with_input (made r rows.old) input line.now }
{
    let n = input.len;
    if input.failed {
        return faulted(r, Fault::NotRead);
    }
    if input.left == 0 {
        return r;
    }
    with_next(r, rows, input.long, &line[..n])
}

// The reading of all lines of a file. The steps are enough for 10,000 lines and for 160 million bytes.
fn read_lines<F: Read>(
    file: &mut F,
    r: Reading,
    rows: &mut [u16],
    piece: &mut [u8],
    line: &mut [u8],
) -> Reading
    requires { well r.fault ≡ true }
    ensures { Makes (length line.old) (made r rows.old) (made result rows.new) }
{
    // A loop: the input is a state, which each line changes.
    let mut q = r;
    let mut input = lines::start(50000);
    while 0 < input.left {
        input = lines::next_line(file, input, piece, line);
        q = with_input(q, rows, input, line);
        if q.fault.is_some() {
            return q;
        }
    }
    q
}

// The reading of a file from its first line.
fn read_open<F: Read>(file: &mut F, rows: &mut [u16]) -> Reading
    ensures { Makes 4096 (made begin rows.old) (made result rows.new) }
{
    let mut piece = [0u8; 4096];
    let mut line = [0u8; 4096];
    read_lines(file, first(), rows, &mut piece, &mut line)
}

// The reading of a file, where it could be opened.
pub fn read_all<F: Read>(file: &mut Option<F>, rows: &mut [u16]) -> Reading
    ensures { Reads rows.old (made result rows.new) }
{
    match file {
        Some(open) => read_open(open, rows),
        None => faulted(first(), Fault::NotOpened),
    }
}
