// Lines of a text, found and written; the words for months and weekdays.
ghost use Rattle.std.specs.Prelude.{◌≡◌, ◌==◌, not, length, take, drop};
ghost use Rattle.std.specs.List.{take_while};
ghost use Rattle.text.specs.Fronts.{up_to};
ghost use Rattle.text.specs.Written.{Wrote};
ghost use Rattle.wall.specs.Words.{next_line, line_from, word, weekdays, gregorian_months, bs_months};

// The place behind the line that stands at a place.
fn next_line(s: &[u8], from: usize) -> usize
    ensures { drop result s.now ≡ next_line (drop from s.now) }
{
    for i in from..s.len() {
        if s[i] == b'\n' {
            return i + 1;
        }
    }
    s.len()
}

// The place of line k.
fn line_from(s: &[u8], k: u16) -> usize
    ensures { drop result s.now ≡ line_from k s.now }
{
    let mut at = 0;
    for _done in 0..k {
        at = next_line(s, at);
    }
    at
}

// How many bytes stand before the byte stop, of the first `most` of a text.
fn before(s: &[u8], stop: u8, most: u16) -> usize
    ensures { result ≡ length (take_while (λ b. not (b == stop)) (take most s.now)) }
{
    s.iter()
        .take(most as usize)
        .take_while(|b| **b != stop)
        .count()
}

// Writes what stands at a place up to the byte stop, at most so many bytes of it.
pub fn put_up_to(out: &mut [u8], at: usize, s: &[u8], from: usize, stop: u8, most: u16) -> usize
    ensures { Wrote out.old at (up_to stop most (drop from s.now)) out.new result }
{
    let rest = text::behind(s, from);
    let n = before(rest, stop, most);
    text::put(out, at, &rest[..n])
}

// Writes line k of a text, at most so many bytes of it.
fn put_word(out: &mut [u8], at: usize, s: &[u8], k: u16, most: u16) -> usize
    ensures { Wrote out.old at (word most k s.now) out.new result }
{
    put_up_to(out, at, s, line_from(s, k), b'\n', most)
}

// Writes a weekday's name, 0 for Sunday, or so many letters of it.
pub fn put_weekday(out: &mut [u8], at: usize, k: u16, most: u16) -> usize
    ensures { Wrote out.old at (word most k weekdays) out.new result }
{
    put_word(
        out,
        at,
        b"Sunday\nMonday\nTuesday\nWednesday\nThursday\nFriday\nSaturday\n",
        k,
        most,
    )
}

// Writes a Gregorian month's name, or so many letters of it.
pub fn put_gregorian_month(out: &mut [u8], at: usize, k: u16, most: u16) -> usize
    ensures { Wrote out.old at (word most k gregorian_months) out.new result }
{
    put_word(
        out,
        at,
        b"\nJanuary\nFebruary\nMarch\nApril\nMay\nJune\nJuly\nAugust\nSeptember\nOctober\nNovember\nDecember\n",
        k,
        most,
    )
}

// Writes a BS month's name, or so many letters of it.
pub fn put_bs_month(out: &mut [u8], at: usize, k: u16, most: u16) -> usize
    ensures { Wrote out.old at (word most k bs_months) out.new result }
{
    put_word(
        out,
        at,
        b"\nBaishakh\nJestha\nAshadh\nShrawan\nBhadra\nAshwin\nKartik\nMangsir\nPoush\nMagh\nFalgun\nChaitra\n",
        k,
        most,
    )
}
