// What is told on standard error of a file that was read: the line in which a table or rules break a rule of acceptance, a line that is out of form,
// and the first row of a table whose comment says another year. To find a line of a table the file is read once more, where it can be.
ghost use Rattle.std.specs.Prelude.{◌≡◌, ◌≤◌, length};
ghost use Rattle.text.specs.Written.{Wrote};
ghost use Rattle.files.specs.Told.{table_line, year_of, other_year, meets, nowhere, looked_at, place_text, years_text, said_at, warning_text};
ghost use Rattle.files.specs.Texts.{control_text, name_fault_text};
ghost use Rattle.files.specs.Inner.{Looks};

use crate::problems::Problem;
use conversion::Table;
use faults::Fault;
use output::STDERR;
use std::io::{Read, Seek, SeekFrom};
use std::num::wrapping_add_u64;
use tables::Broken;
use text::Cursor;

// What is sought among the lines that have a word: the one that so many come before; or, in a table that begins with this year, the first row
// whose comment says another year.
#[derive(Clone, Copy)]
pub enum Sought {
    Line(u64),
    OtherYear(u16),
}

// The number of the line that was looked at last, from 1 on; how many lines with a word come before it; and, once it is the one sought, what its comment
// says: a year or none.
#[derive(Clone, Copy)]
pub struct Place {
    pub line: u64,
    pub before: u64,
    pub found: Option<Option<u16>>,
}

// How many lines with a word come before the line in which a table of so many rows breaks a rule.
fn table_line(b: Option<Broken>, rows: usize) -> u64
    ensures { result ≡ table_line b rows }
{
    match b {
        None => 0,
        Some(Broken::FirstYear) => 0,
        Some(Broken::NoRow) => 0,
        Some(Broken::ManyRows) => 129,
        Some(Broken::NoDate) => 0,
        Some(Broken::FirstDay) => 0,
        Some(Broken::Cell(i, _, _)) => wrapping_add_u64(i as u64, 1),
        Some(Broken::LastDay) => rows as u64,
    }
}

// The BS year of the row that so many lines with a word come before, of which the first is no row.
#[tactic(auto, unfolding(crate::specs::Told::year_of))]
fn year_of(first: u16, before: u64) -> u64
    ensures { result ≡ year_of first before }
{
    if before == 0 {
        return 0;
    }
    wrapping_add_u64(first as u64, before - 1)
}

// Whether a comment says another year than its row has.
fn says_other(first: u16, before: u64, said: Option<u16>) -> bool
    ensures { result ≡ other_year first before said }
{
    match said {
        Some(n) => (before != 0) & (n as u64 != year_of(first, before)),
        None => false,
    }
}

// Whether a line is the one sought, by how many with a word come before it and what its comment says.
fn is_sought(sought: Sought, before: u64, said: Option<u16>) -> bool
    ensures { result ≡ meets sought before said }
{
    match sought {
        Sought::Line(n) => before == n,
        Sought::OtherYear(first) => says_other(first, before, said),
    }
}

// The next line looked at.
#[tactic(auto, unfolding(crate::specs::Told::looked_at))]
fn look_at(p: Place, sought: Sought, s: &[u8]) -> Place
    ensures { result ≡ looked_at sought p s.now }
{
    let line = wrapping_add_u64(p.line, 1);
    if fields::is_blank(s) {
        return Place {
            line,
            before: p.before,
            found: None,
        };
    }
    let said = fields::year_said(s);
    if is_sought(sought, p.before, said) {
        return Place {
            line,
            before: p.before,
            found: Some(said),
        };
    }
    Place {
        line,
        before: wrapping_add_u64(p.before, 1),
        found: None,
    }
}

// Before the first line.
fn no_place() -> Place
    ensures { result ≡ nowhere }
{
    Place {
        line: 0,
        before: 0,
        found: None,
    }
}

// Looks at the lines of a file until one is the one sought.
fn look_through<F: Read>(file: &mut F, sought: Sought, piece: &mut [u8], line: &mut [u8]) -> Place
    ensures { Looks sought nowhere result }
{
    // A loop: the input is a state, which each line changes.
    let mut p = no_place();
    let mut input = lines::start(50000);
    while 0 < input.left {
        input = lines::next_line(file, input, piece, line);
        let n = input.len;
        p = look_at(p, sought, &line[..n]);
        if p.found.is_some() {
            return p;
        }
    }
    p
}

// The place of what is sought in a file that was read, from its beginning; none where the file cannot be read twice.
fn look<F: Read + Seek>(file: &mut F, sought: Sought) -> Place
    ensures { Looks sought nowhere result }
{
    match file.seek(SeekFrom::Start(0)) {
        Ok(0) => {
            let mut piece = [0u8; 4096];
            let mut line = [0u8; 4096];
            look_through(file, sought, &mut piece, &mut line)
        }
        Ok(_) => no_place(),
        Err(_) => no_place(),
    }
}

// Writes the name of a file and, where it was found, the line.
fn put_place(out: &mut [u8], at: usize, path: &[u8], p: Place) -> usize
    ensures { Wrote out.old at (place_text path.now p) out.new result }
{
    let a = text::put(out, at, path);
    if p.found.is_some() {
        let b = text::put(out, a, b": line ");
        return text::put_decimal(out, b, p.line);
    }
    a
}

// Writes the year that a comment says and the year that its row has.
fn put_years(out: &mut [u8], at: usize, said: u16, year: u64) -> usize
    ensures { Wrote out.old at (years_text said year) out.new result }
{
    let a = text::put(out, at, b": the comment says ");
    let b = text::put_decimal(out, a, said as u64);
    let c = text::put(out, b, b", the row is BS ");
    let d = text::put_decimal(out, c, year);
    text::put(out, d, b"\n")
}

// The year that the comment at a place says, 0 where it says none.
fn said_at(p: Place) -> u16
    ensures { result ≡ said_at p.found }
{
    match p.found {
        Some(Some(n)) => n,
        Some(None) => 0,
        None => 0,
    }
}

// Writes that the comment at a place says another year than its row, which is this one, has.
fn put_warning(out: &mut [u8], at: usize, path: &[u8], p: Place, year: u64) -> usize
    ensures { Wrote out.old at (warning_text path.now p year) out.new result }
{
    let a = text::put(out, at, b"warning: ");
    let b = put_place(out, a, path, p);
    put_years(out, b, said_at(p), year)
}

// Says what is wrong with a file.
#[tactic(auto, using(crate::proofs::Fits::front_taken))]
pub fn report(path: &[u8], p: Problem) {
    let mut out = [0u8; 4608];
    let n = crate::put_problem(&mut out, 0, path, p);
    io::write_all(STDERR, &out[..n]);
}

// Says where a table breaks a rule.
#[tactic(auto, using(crate::proofs::Fits::front_taken))]
fn report_table(path: &[u8], p: Place, table: Table, b: Option<Broken>) {
    let mut out = [0u8; 4608];
    let a = put_place(&mut out, 0, path, p);
    let n = tables::put_refusal(&mut out, a, table, b);
    io::write_all(STDERR, &out[..n]);
}

// How many lines of a text are the ones due in a rule file, and the place behind them; their numbers are stored, and it ends where there is no room.
fn walk(s: &[u8], numbers: &mut [u16]) -> (usize, Cursor)
    ensures { result.0 ≤ length numbers.new }
{
    let mut c = text::start();
    for (i, number) in numbers.iter_mut().enumerate() {
        let Some((n, next)) = keyed::read_line(s, c, rulefile::key(i)) else {
            return (i, c);
        };
        *number = n;
        c = next;
    }
    (numbers.len(), c)
}

// Says what was expected in the line that i come before, with which this text begins.
#[tactic(auto, using(crate::proofs::Fits::front_taken))]
fn report_line(path: &[u8], i: usize, rest: &[u8]) {
    let mut out = [0u8; 4608];
    let a = faults::put_line(&mut out, 0, path, wrapping_add_u64(i as u64, 1));
    let n = faults::put_line_fault(&mut out, a, i, rest);
    io::write_all(STDERR, &out[..n]);
}

// Says which line of a rule file is out of form, and why. A text of 65,536 bytes has less than 8,888 lines that are the ones due.
pub fn tell_out_of_form(path: &[u8], s: &[u8]) {
    let mut numbers = [0u16; 8888];
    let (i, c) = walk(s, &mut numbers);
    let at = c.at;
    if at <= s.len() {
        report_line(path, i, &s[at..]);
    }
}

// Says where a list of rules breaks a rule.
#[tactic(auto, using(crate::proofs::Fits::front_taken))]
fn report_rules(path: &[u8], f: Option<Fault>) {
    let mut out = [0u8; 4608];
    let a = text::put(&mut out, 0, path);
    let n = faults::put_refusal(&mut out, a, f);
    io::write_all(STDERR, &out[..n]);
}

// Says where the rules of a file in form are refused.
pub fn tell_refused(path: &[u8], s: &[u8]) {
    let mut numbers = [0u16; 8888];
    let (n, _) = walk(s, &mut numbers);
    report_rules(path, faults::first_fault(&numbers[..n]));
}

// Writes which control character stands in a text.
fn put_control(out: &mut [u8], at: usize, b: u8) -> usize
    ensures { Wrote out.old at (control_text «b») out.new result }
{
    if b == 13 {
        return text::put(out, at, b"a carriage return: a line ends in LF alone");
    }
    if b == 9 {
        return text::put(out, at, b"a tab");
    }
    let a = text::put(out, at, b"byte ");
    text::put_decimal(out, a, b as u64)
}

// Writes what is wrong with a line of names.
fn put_name_fault(out: &mut [u8], at: usize, fault: naming::Fault) -> usize
    ensures { Wrote out.old at (name_fault_text fault) out.new result }
{
    match fault {
        naming::Fault::Mark => text::put(
            out,
            at,
            b"expected NUMBER=TEXT: the file begins with a byte order mark\n",
        ),
        naming::Fault::Form => text::put(out, at, b"expected NUMBER=TEXT\n"),
        naming::Fault::NotGreater => text::put(
            out,
            at,
            b"expected a number greater than the one before\n",
        ),
        naming::Fault::NoText => text::put(out, at, b"expected NUMBER=TEXT: the text is empty\n"),
        naming::Fault::NotUtf8 => text::put(out, at, b"expected a text in UTF-8\n"),
        naming::Fault::Control(b) => {
            let a = text::put(
                out,
                at,
                b"expected a text without control characters, found ",
            );
            let c = put_control(out, a, b);
            text::put(out, c, b"\n")
        }
        naming::Fault::NoFeed => text::put(
            out,
            at,
            b"expected NUMBER=TEXT: the file's last line has no line feed\n",
        ),
    }
}

// Says which line of a file of names is out of form, and why.
#[tactic(auto, using(crate::proofs::Fits::front_taken))]
pub fn tell_name(path: &[u8], line: usize, fault: naming::Fault) {
    let mut out = [0u8; 4608];
    let a = faults::put_line(&mut out, 0, path, line as u64);
    let n = put_name_fault(&mut out, a, fault);
    io::write_all(STDERR, &out[..n]);
}

// Warns of a comment that says another year.
#[tactic(auto, using(crate::proofs::Fits::front_taken))]
fn warn(path: &[u8], p: Place, first: u16) {
    let mut out = [0u8; 4608];
    let n = put_warning(&mut out, 0, path, p, year_of(first, p.before));
    io::write_all(STDERR, &out[..n]);
}

// Says what is wrong with the years that the comments of a table say.
fn tell_years<F: Read + Seek>(file: &mut F, path: &[u8], first: u16) {
    let p = look(file, Sought::OtherYear(first));
    if p.found.is_some() {
        warn(path, p, first);
    }
}

// Says where a table is refused, or else of a comment that says another year.
fn judge_table<F: Read + Seek>(file: &mut F, path: &[u8], table: Table, rows: &[u16]) {
    if conversion::accepts(table, rows) {
        tell_years(file, path, table.first_year);
        return;
    }
    let b = tables::first_broken(table, rows);
    let p = look(
        file,
        Sought::Line(table_line(b, conversion::year_count(rows))),
    );
    report_table(path, p, table, b);
}

// Says what there is to say of a table that was read.
pub fn tell_table<F: Read + Seek>(
    file: &mut Option<F>,
    path: &[u8],
    r: Result<(Table, usize), Problem>,
    rows: &[u16],
) {
    match r {
        Ok((table, n)) => {
            if let Some(open) = file {
                if n <= rows.len() {
                    judge_table(open, path, table, &rows[..n]);
                }
            }
        }
        Err(p) => report(path, p),
    }
}
