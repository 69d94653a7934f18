// A month's page: the cells of its days and the lists of its days, before either goes to a lent buffer.
ghost use Rattle.std.specs.Prelude.{◌≡◌, true, ◌+◌, ◌-◌, ◌*◌, ◌≤◌, ◌<◌, length, replicate};
ghost use Rattle.std.proofs.lemmas.List.Edits.{sets};
ghost use Rattle.gregorian.specs.Calendar.{weekday_of};
ghost use Rattle.rules.specs.Rules.{accepted_rules};
ghost use Rattle.rules.specs.Festivals.{numbers};
ghost use Rattle.festivals.specs.Months.{each};
ghost use Rattle.grid.specs.Cells.{joined};
ghost use Rattle.grid.specs.Inner.{Planned, Roomy, list_at, cell_at, shown_by, cells_of, month_of};

use crate::Month;
use crate::cells::{day_cell, day_on, is_holiday, reading_on};
use gregorian::Date;
use paper::{Answer, Refusal};
use rules::lists::{Years, put_day_list};

// A month of an accepted table: its first day's number, its days, and the two resolved years that its lists come from.
#[derive(Clone, Copy)]
pub struct Plan {
    pub today: Date,
    pub year: u16,
    pub month: u16,
    pub first: u32,
    pub days: u16,
    pub years: Years,
}

// Stores src in out, from at on.
pub fn put_at(out: &mut [u16], at: usize, src: &[u16])
    requires { at + length src.now ≤ length out.old }
    ensures { out.new ≡ sets out.old at src.now }
{
    // A loop, which the compiler sees through: over `copy_from_slice` it keeps more copies of a whole state in what asks a kept one.
    for i in 0..src.len() {
        out[at + i] = src[i];
    }
}

// How many blanks stand before a day in its week.
fn lead_of(n: u32) -> usize
    ensures { result ≡ weekday_of n }
{
    gregorian::weekday_of(n) as usize
}

// Day d, from 0: its list in lists after the pairs that stand there, and its cell in its place of page; how many pairs stand in lists then.
fn put_cell(
    rules: &[u16],
    plan: Plan,
    d: u16,
    page: &mut [u16],
    lists: &mut [u16],
    at: usize,
) -> usize
    requires rules_value { accepted_rules rules.now ≡ true }
    requires planned { Planned plan × (d < plan.days) }
    requires roomy { Roomy page.old lists.old × (at ≤ 384 * d) }
    ensures page_after { page.new ≡ sets page.old ((weekday_of plan.first + d) * 12) (cell_at rules.now plan d) }
    ensures lists_after { lists.new ≡ sets lists.old (at * 2) (numbers (list_at rules.now plan d)) }
    ensures value { result ≡ at + length (list_at rules.now plan d) }
    ensures upper_bound { result ≤ at + 384 }
{
    let day = day_on(plan.year, plan.month, plan.first, d);
    let end = put_day_list(rules, day, plan.years, lists, at);
    let holiday = is_holiday(day.number, lists, at, end);
    let reading = reading_on(day);
    let cell = day_cell(plan.today, day, (end - at) as u16, holiday, reading);
    put_at(page, (lead_of(plan.first) + d as usize) * 12, &cell);
    end
}

// The cells of all days in page, the first in its weekday's place, and their lists in lists; how many pairs those are.
fn fill(rules: &[u16], plan: Plan, page: &mut [u16], lists: &mut [u16]) -> usize
    requires rules_value { accepted_rules rules.now ≡ true }
    requires planned { Planned plan × Roomy page.old lists.old }
    ensures page_after { page.new
        ≡ sets page.old (weekday_of plan.first * 12) (joined (each (cell_at rules.now plan) 0 plan.days)) }
    ensures lists_after { lists.new ≡ sets lists.old 0 (numbers (joined (each (list_at rules.now plan) 0 plan.days))) }
    ensures value { result ≡ length (joined (each (list_at rules.now plan) 0 plan.days)) }
    ensures upper_bound { result ≤ 12288 }
{
    let mut at = 0;
    for d in 0..plan.days {
        at = put_cell(rules, plan, d, page, lists, at);
    }
    at
}

// How many cells a month takes: whole weeks.
fn cell_count(plan: Plan) -> usize
    requires { Planned plan }
    ensures { result ≡ cells_of plan }
{
    (lead_of(plan.first) + plan.days as usize + 6) / 7 * 7
}

// What is answered of a month.
fn month_of(plan: Plan, cells: usize, festivals: usize) -> Month
    requires { Planned plan }
    ensures { result ≡ month_of plan cells festivals }
{
    let first = day_on(plan.year, plan.month, plan.first, 0).ad;
    let last = day_on(plan.year, plan.month, plan.first, plan.days - 1).ad;
    Month {
        days: plan.days,
        first,
        last,
        cells,
        festivals,
    }
}

// The month, worked out in page, which is all 0, and in lists, and then copied to the two lent buffers, if each is long enough.
fn copy_month(
    rules: &[u16],
    plan: Plan,
    page: &mut [u16],
    lists: &mut [u16],
    cells: &mut [u16],
    festivals: &mut [u16],
) -> Answer<Month>
    requires rules_value { accepted_rules rules.now ≡ true }
    requires planned { Planned plan × Roomy page.old lists.old }
    requires page_value { page.old ≡ replicate (length page.old) 0 }
    ensures result_value { result ≡ (shown_by rules.now plan cells.old festivals.old).answer }
    ensures cells_after { cells.new ≡ (shown_by rules.now plan cells.old festivals.old).cells }
    ensures festivals_after { festivals.new ≡ (shown_by rules.now plan cells.old festivals.old).festivals }
{
    let total = cell_count(plan);
    if cells.len() < total * 12 {
        return Err(Refusal::NoRoom);
    }
    let count = fill(rules, plan, page, lists);
    if festivals.len() < count * 2 {
        return Err(Refusal::NoRoom);
    }
    put_at(cells, 0, &page[..total * 12]);
    put_at(festivals, 0, &lists[..count * 2]);
    Ok(month_of(plan, total, count))
}

// The month in the two lent buffers, if each is long enough.
pub fn write_month(
    rules: &[u16],
    plan: Plan,
    cells: &mut [u16],
    festivals: &mut [u16],
) -> Answer<Month>
    requires rules_value { accepted_rules rules.now ≡ true }
    requires planned { Planned plan }
    ensures result_value { result ≡ (shown_by rules.now plan cells.old festivals.old).answer }
    ensures cells_after { cells.new ≡ (shown_by rules.now plan cells.old festivals.old).cells }
    ensures festivals_after { festivals.new ≡ (shown_by rules.now plan cells.old festivals.old).festivals }
{
    let mut page = [0u16; 504];
    let mut lists = [0u16; 24576];
    copy_month(rules, plan, &mut page, &mut lists, cells, festivals)
}
