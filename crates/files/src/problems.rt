// What can be wrong with a file, and the one line that says so.
ghost use Rattle.std.specs.Prelude.{◌≡◌};
ghost use Rattle.text.specs.Written.{Wrote};
ghost use Rattle.files.specs.Problems.{expected_text, at_line, what_text, problem_text};

// What was expected in a line.
#[derive(Clone, Copy)]
pub enum Expected {
    ShortLine,
    Numbers,
    Four,
    Thirteen,
    End,
}

// What is wrong: the file as a whole, or the line of a number, from 1 on.
#[derive(Clone, Copy)]
pub enum Problem {
    NotOpened,
    NotRead,
    TooLarge,
    NoLine,
    At(u32, Expected),
}

// What was expected, in words.
fn words(e: Expected) -> &'static [u8]
    ensures { result.now ≡ expected_text e }
{
    match e {
        Expected::ShortLine => b"at most 4096 bytes",
        Expected::Numbers => b"numbers up to 65535 with spaces between them",
        Expected::Four => b"4 numbers: the first BS year and its first Gregorian day",
        Expected::Thirteen => b"13 numbers: the lengths of twelve months and their sum",
        Expected::End => b"the end of the file: there are too many lines",
    }
}

// Writes what was expected in a line.
fn put_at(out: &mut [u8], at: usize, line: u32, e: Expected) -> usize
    ensures { Wrote out.old at (at_line line e) out.new result }
{
    let a = text::put(out, at, b": line ");
    let b = text::put_decimal(out, a, line as u64);
    let c = text::put(out, b, b": expected ");
    text::put(out, c, words(e))
}

// Writes what is wrong.
fn put_what(out: &mut [u8], at: usize, p: Problem) -> usize
    ensures { Wrote out.old at (what_text p) out.new result }
{
    match p {
        Problem::NotOpened => text::put(out, at, b": cannot be opened"),
        Problem::NotRead => text::put(out, at, b": cannot be read to its end"),
        Problem::TooLarge => text::put(out, at, b": larger than 65536 bytes"),
        Problem::NoLine => text::put(out, at, b": expected a line of numbers, found none"),
        Problem::At(line, e) => put_at(out, at, line, e),
    }
}

// Writes the line `FILE: line N: expected ..` and its line feed into a lent buffer from a place on, and answers the place after it.
pub fn put_problem(out: &mut [u8], at: usize, path: &[u8], p: Problem) -> usize
    ensures { Wrote out.old at (problem_text path.now p) out.new result }
{
    let a = text::put(out, at, path);
    let b = put_what(out, a, p);
    text::put(out, b, b"\n")
}
