// A rule file, read. Nothing goes to the lent buffer before all is known.
ghost use Rattle.std.specs.Prelude.{◌≡◌, length};
ghost use Rattle.rulefile.specs.Files.{read_into};
ghost use Rattle.rulefile.specs.Inner.{Sees};

use crate::keys::key;
use keyed::read_line;
use paper::{Answer, Refusal};
use rules::lists::set_at;
use text::Cursor;

// Reads all lines, and stores their numbers as far as there is room. How many there are; refusal 12 with the line.
fn read_all(s: &[u8], numbers: &mut [u16]) -> Answer<usize>
    ensures { Sees s.now numbers.old numbers.new result }
{
    let mut c = Cursor { at: 0 };
    let mut i = 0;
    while let Some((n, next)) = read_line(s, c, key(i)) {
        set_at(numbers, i, n);
        c = next;
        i += 1;
    }
    if c.at_end(s) & (i % 8 == 0) {
        Ok(i)
    } else {
        Err(Refusal::OutOfForm(i + 1))
    }
}

// The rules, read first into a buffer of 2,560 numbers, which no good list exceeds, and copied into the lent one when they are good and have room.
fn read_kept(s: &[u8], kept: &mut [u16], rules: &mut [u16]) -> Answer<usize>
    requires { length kept.old ≡ 2560 }
    ensures { (result, rules.new) ≡ read_into s.now rules.old }
{
    let n = read_all(s, kept)?;
    if 2560 < n {
        return Err(Refusal::BadRules);
    }
    if !rules::accepts_rules(&kept[..n]) {
        return Err(Refusal::BadRules);
    }
    if rules.len() < n {
        return Err(Refusal::NoRoom);
    }
    rules[..n].copy_from_slice(&kept[..n]);
    Ok(n / 8)
}

// Reads the rules of a file into a lent buffer, eight numbers each. Refusals 12 with the line, 2, 9.
pub fn read_rules(s: &[u8], rules: &mut [u16]) -> Answer<usize>
    ensures { (result, rules.new) ≡ read_into s.now rules.old }
{
    let mut kept = [0u16; 2560];
    read_kept(s, &mut kept, rules)
}
