// The data files of the engine: a year table and a list of rules, read into lent buffers, and a file of names. What a line of a table is, `fields` says,
// and specs/File.antt what a whole table is; what rules are, `rulefile`; what names are, `naming`. What a file holds is outside every contract: for
// some file each answer and each lent element is that.
#![tactic(auto)]

mod arguments;
mod listing;
mod problems;
mod reading;
mod telling;
mod texts;

ghost use Rattle.std.specs.Prelude.{◌≡◌, is_none};
ghost use Rattle.files.specs.Problems.{wrong_as};
ghost use Rattle.files.specs.File.{table_of, ReadsTable};

pub use arguments::{
    argument, argument_count, names_asked, names_at, rules_asked, rules_at, table_at,
};
use conversion::Table;
pub use listing::RulesFault;
pub use problems::{Expected, Problem, put_problem};
use reading::{Fault, Reading};
use std::io::Read;

// What is wrong with the line that was read last, or with the file.
#[tactic(auto, unfolding(crate::specs::Problems::expected_count))]
fn problem(r: Reading, fault: Fault) -> Problem
    ensures { result ≡ wrong_as (is_none r.table) r.line fault }
{
    let line = r.line;
    match fault {
        Fault::LongLine => Problem::At(line, Expected::ShortLine),
        Fault::NoNumber => Problem::At(line, Expected::Numbers),
        Fault::OtherCount => {
            if r.table.is_none() {
                Problem::At(line, Expected::Four)
            } else {
                Problem::At(line, Expected::Thirteen)
            }
        }
        Fault::TooMany => Problem::At(line, Expected::End),
        Fault::NotRead => Problem::NotRead,
        Fault::NotOpened => Problem::NotOpened,
    }
}

// The table that a reading gives.
fn table_of(r: Reading) -> Result<(Table, usize), Problem>
    ensures { result ≡ table_of r }
{
    if let Some(fault) = r.fault {
        return Err(problem(r, fault));
    }
    let table = r.table.ok_or(Problem::NoLine)?;
    Ok((table, r.count))
}

// Reads the year table in a file, where it could be opened: at most as many rows as the lent buffer has room for.
pub fn read_table<F: Read>(
    file: &mut Option<F>,
    rows: &mut [u16],
) -> Result<(Table, usize), Problem>
    ensures { ReadsTable rows.old result rows.new }
{
    table_of(reading::read_all(file, rows))
}
