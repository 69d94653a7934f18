// A line of a table or of a list of rules, taken apart into its numbers.
ghost use Rattle.std.specs.Prelude.{◌≡◌, ◌≤◌, ◌==◌, drop, length};
ghost use Rattle.std.specs.List.{take_while};
ghost use Rattle.text.specs.Reading.{Says, read_says, read_end};
ghost use Rattle.fields.specs.Line as Line;
ghost use Rattle.fields.specs.Line.{skip, row_of, judged_as};

use text::Cursor;

// Why a line has no numbers: a word is no number up to 65,535, or there are more than thirteen words.
#[derive(Clone, Copy)]
pub enum Unread {
    NoNumber,
    TooMany,
}

// How many numbers a line has, and these from the front.
#[derive(Clone, Copy)]
pub struct Row {
    pub form: Result<usize, Unread>,
    pub values: [u16; 13],
}

// What a line is where so many numbers are wanted.
#[derive(Clone, Copy)]
pub enum Judged {
    Blank,
    Good,
    NoNumber,
    OtherCount,
}

// How many spaces a text begins with.
fn spaces(s: &[u8]) -> usize
    ensures { result ≡ length (take_while (λ b. b == 32) s.now) }
{
    s.iter().take_while(|b| **b == b' ').count()
}

// The first place from `from` on that has no space.
pub fn past_spaces(s: &[u8], from: usize) -> usize
    requires { from ≤ length s.now }
    ensures { (result ≤ length s.now) × (drop result s.now ≡ skip (drop from s.now)) }
{
    from + spaces(&s[from..])
}

// Whether nothing more counts from a place on.
fn ends(s: &[u8], at: usize) -> bool
    ensures { result ≡ Line.ends (drop at s.now) }
{
    (Cursor { at }).at_end(s) | text::stands(s, at, b'#')
}

// Whether a line has no word, so that it counts for nothing.
pub fn is_blank(s: &[u8]) -> bool
    ensures { result ≡ Line.blank s.now }
{
    ends(s, past_spaces(s, 0))
}

// Whether a word is over at a place.
fn word_ends(s: &[u8], at: usize) -> bool
    ensures { result ≡ Line.word_ends (drop at s.now) }
{
    ends(s, at) | text::stands(s, at, b' ')
}

// A word that is a number, and the place after the spaces behind it.
fn read_number(s: &[u8], at: usize) -> Option<(u64, Cursor)>
    ensures { Says s.now (read_says s.now result) (read_end result) (Line.number (drop at s.now)) }
{
    let (n, next) = (Cursor { at }).decimal(s, 65535)?;
    if !word_ends(s, next.at) {
        return None;
    }
    let at = past_spaces(s, next.at);
    Some((n, Cursor { at }))
}

// A line out of form.
fn faulty(why: Unread) -> Row
    ensures { result ≡ Line.faulty why }
{
    Row {
        form: Err(why),
        values: [0; 13],
    }
}

// The numbers of a line.
pub fn read_row(s: &[u8]) -> Row
    ensures { result ≡ row_of s.now }
{
    let mut values = [0u16; 13];
    let mut k = 0;
    let mut at = past_spaces(s, 0);
    // A loop: the place moves by a word at a turn, and the line's end ends it.
    while !ends(s, at) {
        if k == 13 {
            return faulty(Unread::TooMany);
        }
        let Some((n, next)) = read_number(s, at) else {
            return faulty(Unread::NoNumber);
        };
        values[k] = n as u16;
        at = next.at;
        k += 1;
    }
    Row {
        form: Ok(k),
        values,
    }
}

// What a line of so many numbers is.
fn judge_count(k: usize, wanted: usize) -> Judged
    ensures { result ≡ Line.counted_as wanted k }
{
    if k == 0 {
        Judged::Blank
    } else if k == wanted {
        Judged::Good
    } else {
        Judged::OtherCount
    }
}

// What a line is where so many numbers are wanted.
pub fn judge(form: Result<usize, Unread>, wanted: usize) -> Judged
    ensures { result ≡ judged_as wanted form }
{
    match form {
        Ok(k) => judge_count(k, wanted),
        Err(Unread::NoNumber) => Judged::NoNumber,
        Err(Unread::TooMany) => Judged::OtherCount,
    }
}
