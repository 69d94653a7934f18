// A month's cells in weeks from Sunday: each ten columns wide and four lines high.
ghost use Rattle.std.specs.Prelude.{◌≤◌};
ghost use Rattle.text.specs.Written.{Wrote};
ghost use Rattle.wall.specs.Cells.{marked, day_line, tithi_line, sun_line, piece, row, border, week, weeks_of};

use crate::columns::{number, put_clock, put_short_date, put_two};

// Writes a text where a number is not 0, another where it is.
pub fn put_mark(out: &mut [u8], at: usize, n: u16, mark: &[u8], blank: &[u8]) -> usize
    ensures { Wrote out.old at (marked n mark.now blank.now) out.new result }
{
    if n == 0 {
        return text::put(out, at, blank);
    }
    text::put(out, at, mark)
}

// Writes the first line of a day's cell: the BS day, the mark of a holiday, the Gregorian day.
fn put_day_line(out: &mut [u8], at: usize, cells: &[u16], i: usize) -> usize
    requires { i ≤ 4096 }
    ensures { Wrote out.old at (day_line cells.now i) out.new result }
{
    let a = put_two(out, at, number(cells, i, 0));
    let b = put_mark(out, a, number(cells, i, 6), b"* ", b"  ");
    put_short_date(out, b, number(cells, i, 2), number(cells, i, 3))
}

// Writes the second: the tithi, and the mark of today.
fn put_tithi_line(out: &mut [u8], at: usize, cells: &[u16], i: usize) -> usize
    requires { i ≤ 4096 }
    ensures { Wrote out.old at (tithi_line cells.now i) out.new result }
{
    let a = text::put(out, at, b"tithi ");
    let b = put_two(out, a, number(cells, i, 7));
    put_mark(out, b, number(cells, i, 5), b"<<", b"  ")
}

// Writes the third or fourth: a minute of the day behind a word.
fn put_sun_line(out: &mut [u8], at: usize, label: &[u8], minute: u16) -> usize
    ensures { Wrote out.old at (sun_line label.now minute) out.new result }
{
    let a = text::put(out, at, label);
    put_clock(out, a, minute)
}

// Writes line k of a cell, counted from 0; spaces for padding.
fn put_piece(out: &mut [u8], at: usize, k: u8, cells: &[u16], i: usize) -> usize
    requires { i ≤ 4096 }
    ensures { Wrote out.old at (piece k cells.now i) out.new result }
{
    if number(cells, i, 0) == 0 {
        return text::put(out, at, b"          ");
    }
    if k == 0 {
        return put_day_line(out, at, cells, i);
    }
    if k == 1 {
        return put_tithi_line(out, at, cells, i);
    }
    if k == 2 {
        return put_sun_line(out, at, b"rise ", number(cells, i, 9));
    }
    put_sun_line(out, at, b"set  ", number(cells, i, 10))
}

// Writes line k of the seven cells from i on, between bars.
fn put_row(out: &mut [u8], at: usize, k: u8, cells: &[u16], i: usize) -> usize
    requires { i ≤ 4089 }
    ensures { Wrote out.old at (row k cells.now i) out.new result }
{
    let mut next = at;
    for j in i..i + 7 {
        let a = text::put(out, next, b"|");
        next = put_piece(out, a, k, cells, j);
    }
    text::put(out, next, b"|\n")
}

// Writes the line between two weeks.
pub fn put_border(out: &mut [u8], at: usize) -> usize
    ensures { Wrote out.old at border out.new result }
{
    text::put(
        out,
        at,
        b"+----------+----------+----------+----------+----------+----------+----------+\n",
    )
}

// Writes the week of the cells from i on, with the line below it.
fn put_week(out: &mut [u8], at: usize, cells: &[u16], i: usize) -> usize
    requires { i ≤ 4089 }
    ensures { Wrote out.old at (week cells.now i) out.new result }
{
    let a = put_row(out, at, 0, cells, i);
    let b = put_row(out, a, 1, cells, i);
    let c = put_row(out, b, 2, cells, i);
    let d = put_row(out, c, 3, cells, i);
    put_border(out, d)
}

// Writes so many weeks.
pub fn put_weeks(out: &mut [u8], at: usize, cells: &[u16], weeks: u8) -> usize
    ensures { Wrote out.old at (weeks_of cells.now weeks) out.new result }
{
    let mut next = at;
    for w in 0..weeks {
        next = put_week(out, next, cells, w as usize * 7);
    }
    next
}
