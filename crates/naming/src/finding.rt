// The name of a number in a file of names. Whether the file is in form does not matter: the first line with the number counts.
ghost use Rattle.std.specs.Prelude.{◌≡◌};
ghost use Rattle.text.specs.Written.{Wrote};
ghost use Rattle.naming.specs.Names.{has_name, name_of};
ghost use Rattle.naming.specs.Inner.{Begins, Finds};

use crate::lines;

// Where the text begins in a line with that number.
fn text_in(s: &[u8], number: u16) -> Option<usize>
    ensures { Begins s.now number result }
{
    let (n, next) = lines::headed(s)?;
    if n == number as u64 {
        Some(next.at)
    } else {
        None
    }
}

// The text in the first line with that number.
fn find(file: &[u8], number: u16) -> Option<(usize, usize)>
    ensures { Finds file.now number result }
{
    let mut at = 0;
    // A loop: the place moves by a line at a turn.
    while at < file.len() {
        let end = lines::line_end(file, at);
        if let Some(k) = text_in(&file[at..end], number) {
            return Some((at + k, end));
        }
        at = end + 1;
    }
    None
}

// Whether the file has a name of that number.
pub fn has_name(file: &[u8], number: u16) -> bool
    ensures { result ≡ has_name number file.now }
{
    find(file, number).is_some()
}

// Writes the name of that number, at most 120 characters of it, into a lent buffer from a place on, and answers the place after it.
pub fn put_name(out: &mut [u8], at: usize, file: &[u8], number: u16) -> usize
    ensures { Wrote out.old at (name_of number file.now) out.new result }
{
    let Some((from, to)) = find(file, number) else {
        return at;
    };
    let s = &file[from..to];
    let n = utf8::front_length(s, 120);
    text::put(out, at, &s[..n])
}
