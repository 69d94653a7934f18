// One line of the file: where it ends, its number, and what is wrong with it.
ghost use Rattle.std.specs.Prelude.{◌≡◌, ◌+◌, ◌==◌, not, length, drop};
ghost use Rattle.std.specs.List.{take_while};
ghost use Rattle.text.specs.Reading.{Says, read_says, read_end};
ghost use Rattle.naming.specs.Names as Names;
ghost use Rattle.naming.specs.Names.{first_line, lines_of, line_of, judged, texted};

use text::Cursor;

// What is wrong with a line; of several the first.
#[derive(Clone, Copy)]
pub enum Fault {
    // The file begins with a byte order mark.
    Mark,
    // The line is not NUMBER=TEXT.
    Form,
    // Its number is not greater than the one before.
    NotGreater,
    // It has no text.
    NoText,
    // Its text is not UTF-8.
    NotUtf8,
    // Its text has this control character.
    Control(u8),
    // The file ends before its line feed.
    NoFeed,
}

// How many bytes stand before the first line feed.
fn before_feed(s: &[u8]) -> usize
    ensures { result ≡ length (take_while (λ b. not (b == 10)) s.now) }
{
    s.iter().take_while(|b| **b != b'\n').count()
}

// Where the line that begins at a place is over: at its line feed, or at the end of the file.
pub fn line_end(file: &[u8], from: usize) -> usize
    ensures { result ≡ from + length (first_line (lines_of (drop from file.now))) }
{
    from + before_feed(text::behind(file, from))
}

// The number of a line and the place of its text.
pub fn headed(s: &[u8]) -> Option<(u64, Cursor)>
    ensures { Says s.now (read_says s.now result) (read_end result) (Names.headed s.now) }
{
    let (n, next) = text::start().decimal(s, 65535)?;
    Some((n, next.pass(s, b"=")?))
}

// The number of a line with this text, or what is wrong with the text.
fn judge_text(number: u16, s: &[u8]) -> Result<u16, Fault>
    ensures { result ≡ line_of (texted «number» s.now) }
{
    if s.is_empty() {
        return Err(Fault::NoText);
    }
    if !utf8::is_utf8(s) {
        return Err(Fault::NotUtf8);
    }
    match utf8::first_control(s, false) {
        Some(b) => Err(Fault::Control(b)),
        None => Ok(number),
    }
}

// The number of a line, which must be at least `least`, or what is wrong with the line.
pub fn judge(s: &[u8], least: u32) -> Result<u16, Fault>
    ensures { result ≡ line_of (judged least s.now) }
{
    let Some((n, next)) = headed(s) else {
        return Err(Fault::Form);
    };
    if n < least as u64 {
        return Err(Fault::NotGreater);
    }
    judge_text(n as u16, &s[next.at..])
}
