// Questions about the lent table: `check`, `bs`, `ad`, `len` and `valid`.
ghost use Rattle.std.specs.Prelude.{◌≡◌};
ghost use Rattle.conversion.specs.Flat.{flat};
ghost use Rattle.answers.specs.Conversions.{bs_in, conversions_reply};

use crate::days;
use asked::{Words, tags};
use conversion::{BsDate, Table};
use paper::Refusal;
use replies::Reply;

// A BS date from a line's first three words.
fn bs_date(w: Words) -> BsDate
    ensures { result ≡ bs_in w }
{
    BsDate {
        year: w.small(1),
        month: w.small(2),
        day: w.small(3),
    }
}

// The reply to a line in form, or a question mark.
pub fn reply(w: Words, table: Table, rows: &[u16]) -> Reply
    ensures { result ≡ conversions_reply (flat table rows.now) w }
{
    let tag = w.tag;
    let form = w.form;
    match tag {
        tags::CHECK => {
            if form == 0 {
                return Reply::passed(conversion::accepts(table, rows), Refusal::BadTable);
            }
        }
        tags::BS => {
            if form == 111 {
                return days::date(conversion::bs_to_ad(table, rows, bs_date(w)));
            }
        }
        tags::AD => {
            if form == 111 {
                let date = conversion::ad_to_bs(table, rows, w.small(1), w.small(2), w.small(3));
                return Reply::said(date, |b| Reply::Date(b.year, b.month, b.day));
            }
        }
        tags::LEN => {
            if form == 11 {
                let days = conversion::bs_month_len(table, rows, w.small(1), w.small(2));
                return Reply::said(days, |n| Reply::Number(n as u64));
            }
        }
        tags::VALID => {
            if form == 111 {
                return Reply::said(
                    conversion::validate_bs_date(table, rows, bs_date(w)),
                    |()| Reply::Good,
                );
            }
        }
        _ => {}
    }
    Reply::Unformed
}
