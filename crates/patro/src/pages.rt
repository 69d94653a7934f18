// The pages of a month and of a day, worked out by the engine and drawn in a lent buffer.
ghost use Rattle.std.specs.Prelude.{◌≡◌, false, ◌≤◌, length};
ghost use Rattle.kept.specs.Held.{held, Ready};
ghost use Rattle.kept.specs.Operations.{empty};
ghost use Rattle.patro.specs.Pages.{cell_of, titled, part_page, page_bs, page_asked};
ghost use Rattle.patro.specs.Inner.{Draws, DrawsKept, month_of};

use commands::words::Asked;
use conversion::Table;
use gregorian::Date;
use grid::Month;
use kept::{After, Kept};
use paper::{Answer, Refusal};
use wall::Page;

// The whole month, or one of its days.
#[derive(Clone, Copy)]
enum Part {
    Whole,
    Day(u16),
}

// What the page of a month says beside its cells.
fn page_of(year: u16, month: u16, m: Month) -> Page
    requires { m.cells ≤ 42 }
    ensures { result ≡ titled year month m }
{
    let first = m.first;
    let last = m.last;
    Page {
        year,
        month,
        first,
        last,
        weeks: (m.cells / 7) as u8,
    }
}

// The cell of a BS day among 42, or 42 where there is none.
fn cell_of(cells: &[u16], day: u16) -> u8
    requires { length cells.now ≡ 504 }
    ensures { result ≡ cell_of day cells.now }
{
    for i in 0..42 {
        if cells[i as usize * 12] == day {
            return i;
        }
    }
    42
}

// Draws a part of a month from its cells and festivals, from a place on, as far as the buffer goes.
fn draw_part(
    names: &[u8],
    year: u16,
    month: u16,
    part: Part,
    m: Month,
    cells: &[u16],
    festivals: &[u16],
    page: &mut [u8],
    at: usize,
) -> Answer<usize>
    requires { (m.cells ≤ 42) × (length cells.now ≡ 504) }
    ensures { Draws (part_page names.now year month part m cells.now festivals.now)
        page.old at page.new result }
{
    match part {
        Part::Whole => {
            let title = page_of(year, month, m);
            Ok(wall::put_month_page(page, at, title, names, cells, festivals))
        }
        Part::Day(day) => {
            if day == 0 {
                return Err(Refusal::NoDay);
            }
            if m.days < day {
                return Err(Refusal::NoDay);
            }
            let cell = cell_of(cells, day);
            Ok(wall::put_day_page(page, at, year, month, cell, names, cells, festivals))
        }
    }
}

// Draws a part of a BS month.
fn draw_bs(
    today: Date,
    year: u16,
    month: u16,
    part: Part,
    table: Table,
    rows: &[u16],
    rules: &[u16],
    names: &[u8],
    page: &mut [u8],
) -> Answer<usize>
    ensures { Draws (page_bs table rows.now rules.now names.now today year month part)
        page.old 0 page.new result }
{
    let mut cells = [0u16; 504];
    let mut festivals = [0u16; 24576];
    let m = grid::month_grid(
        table,
        rows,
        rules,
        today,
        year,
        month,
        &mut cells,
        &mut festivals,
    )?;
    draw_part(names, year, month, part, m, &cells, &festivals, page, 0)
}

// Draws the day of a Gregorian date.
fn draw_ad(
    today: Date,
    date: Date,
    table: Table,
    rows: &[u16],
    rules: &[u16],
    names: &[u8],
    page: &mut [u8],
) -> Answer<usize>
    ensures { Draws (page_asked table rows.now rules.now names.now today (Asked.Date date))
        page.old 0 page.new result }
{
    let bs = conversion::ad_to_bs(table, rows, date.year, date.month, date.day)?;
    let part = Part::Day(bs.day);
    draw_bs(
        today, bs.year, bs.month, part, table, rows, rules, names, page,
    )
}

// Draws what is asked.
pub fn draw(
    asked: Asked,
    today: Date,
    table: Table,
    rows: &[u16],
    rules: &[u16],
    names: &[u8],
    page: &mut [u8],
) -> Answer<usize>
    ensures { Draws (page_asked table rows.now rules.now names.now today asked)
        page.old 0 page.new result }
{
    match asked {
        Asked::Month(y, m) => draw_bs(today, y, m, Part::Whole, table, rows, rules, names, page),
        Asked::Day(y, m, d) => draw_bs(today, y, m, Part::Day(d), table, rows, rules, names, page),
        Asked::Date(date) => draw_ad(today, date, table, rows, rules, names, page),
    }
}

// Draws a whole month of a state that holds a row, from a place on; the state after it has other stored years at most.
pub fn draw_kept(
    state: Kept,
    today: Date,
    year: u16,
    month: u16,
    names: &[u8],
    page: &mut [u8],
    at: usize,
) -> After<usize>
    requires { Ready state × (empty (held state).rows ≡ false) }
    ensures { DrawsKept (held state) (month_of (held state) names.now today year month) page.old at page.new result }
{
    let mut cells = [0u16; 504];
    let mut festivals = [0u16; 24576];
    let asked = kept::months::ask_month(state, today, year, month, &mut cells, &mut festivals);
    let answer = asked.answer;
    let state = asked.state;
    match answer {
        Ok(m) => After {
            answer: draw_part(
                names,
                year,
                month,
                Part::Whole,
                m,
                &cells,
                &festivals,
                page,
                at,
            ),
            state,
        },
        Err(why) => After {
            answer: Err(why),
            state,
        },
    }
}
