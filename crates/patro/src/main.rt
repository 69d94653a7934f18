// Writes a BS month as a wall calendar, all months of a BS year, or a day in full. Its arguments: the files of the year table, of the rules and of
// the names, today's Gregorian date, and then a BS year, a BS year and month, a BS date or a Gregorian date.
#![tactic(auto)]

mod laying;
mod pages;
mod wanted;
mod years;

use commands::words::Asked;
use commands::{refusals, words};
use conversion::Table;
use gregorian::Date;
use output::{STDERR, STDOUT};
use paper::Refusal;
use std::rt::{Env, Files};
use wanted::Wanted;

// Today by the fourth argument.
fn today<R: Env>(rt: &R) -> Date {
    let mut word = [0u8; 16];
    let n = files::argument(rt, 4, &mut word);
    words::today(&word[..n])
}

// What the words from the fifth argument on want. A word that is longer than its buffer is empty.
fn from_words<R: Env>(rt: &R) -> Option<Wanted> {
    let mut first = [0u8; 16];
    let mut second = [0u8; 16];
    let mut third = [0u8; 16];
    let a = files::argument(rt, 5, &mut first);
    let b = files::argument(rt, 6, &mut second);
    let c = files::argument(rt, 7, &mut third);
    let count = files::argument_count(rt);
    if count < 5 {
        return None;
    }
    wanted::wanted_by(count - 5, &first[..a], &second[..b], &third[..c])
}

// The page that is asked for, of a year its first.
fn first_page(wanted: Wanted) -> Asked {
    match wanted {
        Wanted::Page(asked) => asked,
        Wanted::Year(year) => Asked::Month(year, 1),
    }
}

// Writes the line that says why there is no page to standard error. Where the table or the rules are refused, with 1 or 2, that was said with the
// line of the file as they were read.
fn refuse(why: Refusal, asked: Asked) {
    if why.number() <= 2 {
        return;
    }
    let mut line = [0u8; 160];
    let n = refusals::put_refusal(&mut line, 0, why, words::date_asked(asked));
    io::write_all(STDERR, &line[..n]);
}

// Writes a page to standard output.
fn write_page(page: &[u8]) {
    if !io::write_all(STDOUT, page) {
        io::write_all(STDERR, b"patro: standard output could not be written\n");
    }
}

// Writes what is wanted.
fn show<R: Env>(rt: &R, wanted: Wanted, table: Table, rows: &[u16], rules: &[u16], names: &[u8]) {
    let mut page = [0u8; 262143];
    match laying::lay(wanted, today(rt), table, rows, rules, names, &mut page) {
        Ok(n) => write_page(&page[..n]),
        Err(why) => refuse(why, first_page(wanted)),
    }
}

// Reads the three files and writes what is wanted.
#[tactic(auto, using(files::proofs::Fits::table_fits, files::proofs::Fits::table_taken, files::proofs::Whole::rules_fits, files::proofs::Whole::rules_taken))]
fn run<R: Env + Files>(
    rt: &R,
    wanted: Wanted,
    rows: &mut [u16],
    rules: &mut [u16],
    names: &mut [u8],
) {
    let Ok((table, n)) = files::table_at(rt, 1, rows) else {
        return;
    };
    let Ok(k) = files::rules_at(rt, 2, rules) else {
        return;
    };
    let Some(m) = files::names_at(rt, 3, names) else {
        return;
    };
    show(rt, wanted, table, &rows[..n], &rules[..k], &names[..m]);
}

fn main(rt: HostRuntime) {
    let mut rows = [0u16; 1677];
    let mut rules = [0u16; 2600];
    let mut names = [0u8; 65536];
    match from_words(&rt) {
        Some(wanted) => run(&rt, wanted, &mut rows, &mut rules, &mut names),
        None => {
            io::write_all(
                STDERR,
                b"patro: not in form: give a BS year (2083), a BS year and month (2083 7), a BS date (2083 7 29) or a Gregorian date (2026-11-15)\n",
            );
        }
    }
}
