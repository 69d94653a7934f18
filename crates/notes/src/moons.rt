// The day of a new moon, and how near it lies to the beginning of a solar month, in Nepal time.
ghost use Rattle.std.specs.Prelude.{◌≡◌, true};
ghost use Rattle.conversion.specs.Flat.{accepted, flat};
ghost use Rattle.notes.specs.Near.{dated_moon, minutes_to, nearness};

use conversion::{BsDate, Table};
use festivals::days;
use gregorian::UtDay;
use panchanga::clock;

// The day of an instant in an accepted table.
#[tactic(auto, unfolding(crate::specs::Near::dated_moon, rules::specs::Days::next))]
pub fn date_of(table: Table, rows: &[u16], x: UtDay) -> Option<(u32, BsDate)>
    requires { accepted table rows.now ≡ true }
    ensures { result ≡ dated_moon (flat table rows.now) x.0 }
{
    let n = days::nepal_day(x)?;
    let date = conversion::place(table, rows, n).ok()?;
    Some((n, date))
}

// The minutes from one local day to a later one.
fn minutes_to(a: f64, b: f64) -> u32
    ensures { result ≡ minutes_to a b }
{
    clock::rounded((b - a) * 1440.0)
}

// How near an instant of day n lies to the beginning of a month, where the day is one of a month of len days.
pub fn near(x: UtDay, n: u32, day: u16, len: u16) -> Option<(bool, u32)>
    ensures { result ≡ nearness x.0 «n» day len }
{
    let local = gregorian::local_day(x.0);
    let zero = n as f64;
    if day == 1 {
        return Some((true, minutes_to(zero, local)));
    }
    if day == len {
        let m = minutes_to(local, zero + 1.0);
        return (m <= 720).then_some((false, m));
    }
    None
}
