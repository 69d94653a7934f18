// A day's cell: twelve numbers.
ghost use Rattle.std.specs.Prelude.{◌≡◌, ◌||◌, ◌+◌, ◌-◌, ◌*◌, ◌≤◌, ◌<◌, length};
ghost use Rattle.grid.specs.Cells.{one, saturday, cell_with};
ghost use Rattle.grid.specs.Month.{day_on};
ghost use Rattle.grid.specs.Kathmandu.{reading_on};
ghost use Rattle.grid.specs.Inner.{Dated, any_mark};

use conversion::BsDate;
use festivals::day_numbered;
use gregorian::Date;
use panchanga::KATHMANDU;
use panchanga::lunar::{Reading, reading_of};
use rules::lists::Day;

// Day d, from 0, of a month whose first day has the number first.
#[tactic(auto, using(gregorian::proofs::Laws::in_range_law, gregorian::proofs::Laws::all_number))]
pub fn day_on(year: u16, month: u16, first: u32, d: u16) -> Day
    requires { Dated (first + d) × (d < 32) }
    ensures { result ≡ day_on year month first d }
{
    let bs = BsDate {
        year,
        month,
        day: d + 1,
    };
    day_numbered(bs, first + d as u32)
}

// The reading of a day at Kathmandu.
pub fn reading_on(day: Day) -> Reading
    ensures { result ≡ reading_on day }
{
    reading_of(KATHMANDU, day.ad, day.number)
}

// A mark as a number.
pub fn mark(b: bool) -> u16
    ensures { result ≡ one b }
{
    u16::from(b)
}

// Whether one of the pairs from at to before end is a holiday.
pub fn any_holiday(lists: &[u16], at: usize, end: usize) -> bool
    requires { (at ≤ end) × (end * 2 ≤ length lists.now) }
    ensures { result ≡ any_mark lists.now at (end - at) }
{
    (at..end).any(|i| lists[i * 2 + 1] == 1)
}

// Whether a day is a holiday: a Saturday, or one of the pairs of its list, from at to before end, is a holiday.
pub fn is_holiday(number: u32, lists: &[u16], at: usize, end: usize) -> bool
    requires { (at ≤ end) × (end * 2 ≤ length lists.now) }
    ensures { result ≡ (saturday number || any_mark lists.now at (end - at)) }
{
    gregorian::weekday_of(number) == 6 || any_holiday(lists, at, end)
}

// The cell of a day: how many festivals it has, whether it is a holiday, and its reading.
#[tactic(auto, unfolding(crate::specs::Cells::cell_with))]
pub fn day_cell(today: Date, day: Day, festivals: u16, holiday: bool, reading: Reading) -> [u16; 12]
    ensures { result ≡ cell_with today day festivals holiday reading }
{
    let weekday = gregorian::weekday_of(day.number) as u16;
    let ad = day.ad;
    [
        day.bs.day,
        ad.year,
        ad.month,
        ad.day,
        weekday,
        mark(ad == today),
        mark(holiday),
        reading.tithi,
        reading.end,
        reading.sunrise,
        reading.sunset,
        festivals,
    ]
}
