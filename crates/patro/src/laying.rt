// What is wanted, laid at the front of a lent buffer.
ghost use Rattle.std.specs.Prelude.{◌≡◌, ◌≤◌, length, take, Ok};
ghost use Rattle.patro.specs.Pages.{laid, Lays};
ghost use Rattle.patro.specs.Years.{page_wanted};
ghost use Rattle.patro.specs.Inner.{Draws};

use crate::wanted::Wanted;
use crate::{pages, years};
use conversion::Table;
use gregorian::Date;
use paper::{Answer, Refusal};

// Draws what is wanted.
fn draw_wanted(
    wanted: Wanted,
    today: Date,
    table: Table,
    rows: &[u16],
    rules: &[u16],
    names: &[u8],
    page: &mut [u8],
) -> Answer<usize>
    ensures { Draws (page_wanted table rows.now rules.now names.now today wanted)
        page.old 0 page.new result }
{
    match wanted {
        Wanted::Page(asked) => pages::draw(asked, today, table, rows, rules, names, page),
        Wanted::Year(year) => years::draw_year(year, today, table, rows, rules, names, page),
    }
}

// Copies the first n bytes of a page, where the page ended before its own buffer did and has room in the other.
fn copy(page: &[u8], n: usize, out: &mut [u8]) -> Answer<usize>
    requires { (length page.now ≡ 262144) × (n ≤ 262144) }
    ensures { Lays (laid (Ok (take n page.now)) out.old) out.new result }
{
    if 262143 < n {
        return Err(Refusal::NoRoom);
    }
    if out.len() < n {
        return Err(Refusal::NoRoom);
    }
    Ok(text::put(out, 0, &page[..n]))
}

// Lays the page that is wanted at the front of a buffer. A refusal changes no byte of it.
pub fn lay(
    wanted: Wanted,
    today: Date,
    table: Table,
    rows: &[u16],
    rules: &[u16],
    names: &[u8],
    out: &mut [u8],
) -> Answer<usize>
    ensures { Lays (laid (page_wanted table rows.now rules.now names.now today wanted)
        out.old) out.new result }
{
    let mut page = [0u8; 262144];
    let n = draw_wanted(wanted, today, table, rows, rules, names, &mut page)?;
    copy(&page, n, out)
}
