// A line for each festival of a day, and of a month.
ghost use Rattle.std.specs.Prelude.{◌≡◌, ◌*◌, ◌≤◌};
ghost use Rattle.text.specs.Written.{Wrote};
ghost use Rattle.wall.specs.Columns.{repeated};
ghost use Rattle.wall.specs.Lists as Lists;
ghost use Rattle.wall.specs.Lists.{day_of, festival_text, line_of, festivals_on, festivals_of};

use crate::cells::put_mark;
use crate::columns::{get, number, put_short_date, put_two};
use crate::names::put_festival_name;
use crate::words::put_weekday;

// Writes the day of a cell, before the name of a festival.
fn put_festival_day(out: &mut [u8], at: usize, cells: &[u16], i: usize) -> usize
    requires { i ≤ 4096 }
    ensures { Wrote out.old at (day_of cells.now i) out.new result }
{
    let a = put_two(out, at, number(cells, i, 0));
    let b = text::put(out, a, b"  ");
    let c = put_weekday(out, b, number(cells, i, 4), 3);
    let d = text::put(out, c, b" ");
    let e = put_short_date(out, d, number(cells, i, 2), number(cells, i, 3));
    text::put(out, e, b"  ")
}

// Writes the name of festival f, whether it is a holiday, and a line feed.
fn put_festival(out: &mut [u8], at: usize, names: &[u8], festivals: &[u16], f: usize) -> usize
    requires { f ≤ 300000000 }
    ensures { Wrote out.old at (festival_text names.now festivals.now f) out.new result }
{
    let a = put_festival_name(out, at, get(festivals, f * 2), names);
    put_mark(out, a, get(festivals, f * 2 + 1), b" (holiday)\n", b"\n")
}

// Writes a line for each of n festivals of cell i, from festival f on.
fn put_festival_lines(
    out: &mut [u8],
    at: usize,
    names: &[u8],
    cells: &[u16],
    festivals: &[u16],
    i: usize,
    from: usize,
    n: u16,
) -> usize
    requires { (i ≤ 4096) × (from ≤ 299000000) }
    ensures { Wrote out.old at
        (repeated (line_of names.now cells.now festivals.now i) 1 from n) out.new result }
{
    let mut next = at;
    for f in from..from + n as usize {
        let a = put_festival_day(out, next, cells, i);
        next = put_festival(out, a, names, festivals, f);
    }
    next
}

// How many festivals the cells before cell i have.
fn before(cells: &[u16], i: usize) -> usize
    requires { i ≤ 4096 }
    ensures { (result ≡ Lists.before cells.now i) × (result ≤ 65535 * i) }
{
    let mut sum = 0;
    for k in 0..i {
        sum += number(cells, k, 11) as usize;
    }
    sum
}

// Writes the festivals of cell i.
pub fn put_festivals_on(
    out: &mut [u8],
    at: usize,
    names: &[u8],
    cells: &[u16],
    festivals: &[u16],
    i: usize,
) -> usize
    requires { i ≤ 4096 }
    ensures { Wrote out.old at
        (festivals_on names.now cells.now festivals.now i) out.new result }
{
    let f = before(cells, i);
    put_festival_lines(out, at, names, cells, festivals, i, f, number(cells, i, 11))
}

// Writes the festivals of the first n cells.
pub fn put_festivals(
    out: &mut [u8],
    at: usize,
    names: &[u8],
    cells: &[u16],
    festivals: &[u16],
    n: u16,
) -> usize
    requires { n ≤ 4096 }
    ensures { Wrote out.old at
        (festivals_of names.now cells.now festivals.now n) out.new result }
{
    let mut next = at;
    for i in 0..n as usize {
        next = put_festivals_on(out, next, names, cells, festivals, i);
    }
    next
}
