// The page of a month.
ghost use Rattle.text.specs.Written.{Wrote};
ghost use Rattle.wall.specs.Pages.{bs_month, title, heads, legend, month_page};

use crate::Page;
use crate::cells::{put_border, put_weeks};
use crate::columns::put_full_date;
use crate::lists::put_festivals;
use crate::words::put_bs_month;

// Writes a BS month and its year.
pub fn put_month_and_year(out: &mut [u8], at: usize, year: u16, month: u16) -> usize
    ensures { Wrote out.old at (bs_month year month) out.new result }
{
    let a = put_bs_month(out, at, month, 8);
    let b = text::put(out, a, b" ");
    text::put_decimal(out, b, year as u64)
}

// Writes the line above a month.
fn put_title(out: &mut [u8], at: usize, page: Page) -> usize
    ensures { Wrote out.old at (title page) out.new result }
{
    let first = page.first;
    let last = page.last;
    let a = put_month_and_year(out, at, page.year, page.month);
    let b = text::put(out, a, b" BS, ");
    let c = put_full_date(out, b, first.year, first.month, first.day);
    let d = text::put(out, c, b" to ");
    let e = put_full_date(out, d, last.year, last.month, last.day);
    text::put(out, e, b"\n\n")
}

// Writes the weekdays between two borders.
fn put_heads(out: &mut [u8], at: usize) -> usize
    ensures { Wrote out.old at heads out.new result }
{
    let a = put_border(out, at);
    let b = text::put(
        out,
        a,
        b"|   Sun    |   Mon    |   Tue    |   Wed    |   Thu    |   Fri    |   Sat    |\n",
    );
    put_border(out, b)
}

// Writes what the marks and numbers of a month mean.
fn put_legend(out: &mut [u8], at: usize) -> usize
    ensures { Wrote out.old at legend out.new result }
{
    text::put(
        out,
        at,
        b"* holiday, << today; tithi 1 to 15 waxing, 16 to 30 waning half; Nepal time\n\n",
    )
}

// Writes the page of a month from a place on, as far as the buffer goes, and answers the place after it. The cells and festivals are those of a month
// grid, the names are a file of names.
pub fn put_month_page(
    out: &mut [u8],
    at: usize,
    page: Page,
    names: &[u8],
    cells: &[u16],
    festivals: &[u16],
) -> usize
    ensures { Wrote out.old at
        (month_page page names.now cells.now festivals.now) out.new result }
{
    let a = put_title(out, at, page);
    let b = put_heads(out, a);
    let c = put_weeks(out, b, cells, page.weeks);
    let d = put_legend(out, c);
    put_festivals(out, d, names, cells, festivals, page.weeks as u16 * 7)
}
