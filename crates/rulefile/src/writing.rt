// A rule file, written.
ghost use Rattle.std.specs.Prelude.{◌≡◌, leb, length};
ghost use Rattle.text.specs.Written.{Wrote};
ghost use Rattle.keyed.specs.Lines.{line_text};
ghost use Rattle.rulefile.specs.Files.{rule_form, file_text, write_into};

use crate::keys::key;
use keyed::put_line;
use paper::{Answer, Refusal};

// How many bytes the line after i lines takes: it is written apart, where every line has room.
fn due_length(i: usize, n: u16) -> usize
    ensures { result ≡ length (line_text (rule_form.key i) n) }
{
    let mut apart = [0u8; 32];
    put_line(&mut apart, 0, key(i), n)
}

// Whether the file of the rules has room.
fn has_room(rules: &[u16], room: usize) -> bool
    ensures { result ≡ leb (length (file_text rules.now)) room }
{
    let mut left = room;
    for (i, n) in rules.iter().enumerate() {
        let Some(rest) = left.checked_sub(due_length(i, *n)) else {
            return false;
        };
        left = rest;
    }
    true
}

// Writes the file of the rules, as far as there is room.
fn put_all(rules: &[u16], out: &mut [u8]) -> usize
    ensures { Wrote out.old 0 (file_text rules.now) out.new result }
{
    let mut at = 0;
    for (i, n) in rules.iter().enumerate() {
        at = put_line(out, at, key(i), *n);
    }
    at
}

// Writes the file of the rules at the front of a lent buffer. Refusals 2, 9.
pub fn write_rules(rules: &[u16], out: &mut [u8]) -> Answer<usize>
    ensures { (result, out.new) ≡ write_into rules.now out.old }
{
    if !rules::accepts_rules(rules) {
        return Err(Refusal::BadRules);
    }
    if !has_room(rules, out.len()) {
        return Err(Refusal::NoRoom);
    }
    Ok(put_all(rules, out))
}
