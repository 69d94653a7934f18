// Asking a state for a date of the other calendar. The table alone is asked, and the state stays as it is.
ghost use Rattle.std.specs.Prelude.{◌≡◌};
ghost use Rattle.conversion.specs.Calendar.{to_ad, from_ad};
ghost use Rattle.conversion.specs.Flat.{flat};
ghost use Rattle.kept.specs.Held.{held, Ready};
ghost use Rattle.kept.specs.Converting.{TableHeld, if_row, ask_to_ad, ask_from_ad};

use crate::{Kept, front};
use conversion::{BsDate, Table};
use gregorian::Date;
use paper::{Answer, Refusal};

// The Gregorian date of a BS date, over the table that a state holds: refusals 13, 4, 5, 6.
pub fn to_ad(table: Table, rows: &[u16], bs: BsDate) -> Answer<Date>
    ensures { TableHeld table rows.now
        → result ≡ if_row rows.now (to_ad (flat table rows.now) bs.year bs.month bs.day) }
{
    if rows.is_empty() {
        return Err(Refusal::NoRow);
    }
    conversion::known::bs_to_ad(table, rows, bs)
}

// The BS date of a Gregorian date, over the table that a state holds: refusals 13, 3, 7.
pub fn from_ad(table: Table, rows: &[u16], year: u16, month: u16, day: u16) -> Answer<BsDate>
    ensures { TableHeld table rows.now
        → result ≡ if_row rows.now (from_ad (flat table rows.now) year month day) }
{
    if rows.is_empty() {
        return Err(Refusal::NoRow);
    }
    conversion::known::ad_to_bs(table, rows, year, month, day)
}

// The Gregorian date of a BS date. Refusals 13, 4, 5, 6.
pub fn bs_to_ad(state: Kept, year: u16, month: u16, day: u16) -> Answer<Date>
    ensures { Ready state → result ≡ ask_to_ad (held state) year month day }
{
    to_ad(
        state.table,
        front(&state.rows, state.row_len),
        BsDate { year, month, day },
    )
}

// The BS date of a Gregorian date. Refusals 13, 3, 7, which tells how far outside the table the date lies.
pub fn ad_to_bs(state: Kept, year: u16, month: u16, day: u16) -> Answer<BsDate>
    ensures { Ready state → result ≡ ask_from_ad (held state) year month day }
{
    from_ad(
        state.table,
        front(&state.rows, state.row_len),
        year,
        month,
        day,
    )
}
