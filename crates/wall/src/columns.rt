// Numbers in columns: two wide, and as a clock.
ghost use Rattle.std.specs.Prelude.{◌≡◌, ◌+◌, ◌*◌, ◌≤◌, get_or};
ghost use Rattle.text.specs.Written.{Wrote};
ghost use Rattle.wall.specs.Columns.{two, clock, short_date, full_date};

use crate::words::put_gregorian_month;

// A number of a list, 0 past the end.
pub fn get(list: &[u16], at: usize) -> u16
    ensures { result ≡ get_or list.now at 0 }
{
    if at < list.len() { list[at] } else { 0 }
}

// Number k of cell i.
pub fn number(cells: &[u16], i: usize, k: usize) -> u16
    requires { (i ≤ 4096) × (k ≤ 11) }
    ensures { result ≡ get_or cells.now (i * 12 + k) 0 }
{
    get(cells, i * 12 + k)
}

// Writes a number of one or two digits in two columns.
pub fn put_two(out: &mut [u8], at: usize, n: u16) -> usize
    ensures { Wrote out.old at (two n) out.new result }
{
    if n < 10 {
        let a = text::put(out, at, b" ");
        return text::put_wide(out, a, n as u64, 1);
    }
    text::put_wide(out, at, n as u64, 2)
}

// Writes a minute of the day as a clock has it, and dashes where there is none.
pub fn put_clock(out: &mut [u8], at: usize, minute: u16) -> usize
    ensures { Wrote out.old at (clock minute) out.new result }
{
    if minute < 1440 {
        let a = text::put_wide(out, at, (minute / 60) as u64, 2);
        let b = text::put(out, a, b":");
        return text::put_wide(out, b, (minute % 60) as u64, 2);
    }
    text::put(out, at, b"--:--")
}

// Writes a Gregorian day in six columns, as Nov 15.
pub fn put_short_date(out: &mut [u8], at: usize, month: u16, day: u16) -> usize
    ensures { Wrote out.old at (short_date month day) out.new result }
{
    let a = put_gregorian_month(out, at, month, 3);
    let b = text::put(out, a, b" ");
    put_two(out, b, day)
}

// Writes a Gregorian date, as 15 November 2026.
pub fn put_full_date(out: &mut [u8], at: usize, year: u16, month: u16, day: u16) -> usize
    ensures { Wrote out.old at (full_date year month day) out.new result }
{
    let a = text::put_decimal(out, at, day as u64);
    let b = text::put(out, a, b" ");
    let c = put_gregorian_month(out, b, month, 9);
    let d = text::put(out, c, b" ");
    text::put_decimal(out, d, year as u64)
}
