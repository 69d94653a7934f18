// A month or a day as text for a plain terminal: the numbers of a month's cells and festivals laid out in words and columns.
#![tactic(auto)]

mod cells;
mod columns;
mod day;
mod lists;
mod month;
mod names;
mod words;

pub use columns::put_full_date;
pub use day::put_day_page;
use gregorian::Date;
pub use month::put_month_page;
pub use names::put_festival_name;

// What the page of a month says beside its cells: BS year and month, its first and last Gregorian date, how many weeks its cells take.
#[derive(Clone, Copy)]
pub struct Page {
    pub year: u16,
    pub month: u16,
    pub first: Date,
    pub last: Date,
    pub weeks: u8,
}
