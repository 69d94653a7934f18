// Says whether a date is a holiday, and why. Its arguments: the files of the year table, of the rules and of the names, and then a BS date or a
// Gregorian date.
#![tactic(auto)]

mod reasons;
mod said;

use commands::words::Asked;
use commands::{refusals, words};
use conversion::Table;
use output::{STDERR, STDOUT};
use paper::Refusal;
use reasons::Reason;
use std::rt::{Env, Files};

// What the words from the fourth argument on ask: one or three. A word that is longer than its buffer is empty.
fn from_words<R: Env>(rt: &R) -> Option<Asked> {
    let mut first = [0u8; 16];
    let mut second = [0u8; 16];
    let mut third = [0u8; 16];
    let a = files::argument(rt, 4, &mut first);
    let b = files::argument(rt, 5, &mut second);
    let c = files::argument(rt, 6, &mut third);
    let count = files::argument_count(rt);
    if count == 5 {
        return words::asked_by(1, &first[..a], &second[..b], &third[..c]);
    }
    if count == 7 {
        return words::asked_by(3, &first[..a], &second[..b], &third[..c]);
    }
    None
}

// Writes the line that says why there is no answer to standard error. Where the table or the rules are refused, with 1 or 2, that was said with the
// line of the file as they were read.
fn refuse(why: Refusal, asked: Asked) {
    if why.number() <= 2 {
        return;
    }
    let mut line = [0u8; 160];
    let n = refusals::put_refusal(&mut line, 0, why, words::date_asked(asked));
    io::write_all(STDERR, &line[..n]);
}

// Writes yes or no, and why, to standard output.
fn tell(reason: Option<Reason>, names: &[u8]) {
    let mut line = [0u8; 65600];
    let n = said::put_reason(&mut line, 0, reason, names);
    if !io::write_all(STDOUT, &line[..n]) {
        io::write_all(STDERR, b"gate: standard output could not be written\n");
    }
}

// Writes what is answered.
fn show(asked: Asked, table: Table, rows: &[u16], rules: &[u16], names: &[u8]) {
    match reasons::reason_asked(table, rows, rules, asked) {
        Ok(reason) => tell(reason, names),
        Err(why) => refuse(why, asked),
    }
}

// Reads the three files and writes what is answered.
#[tactic(auto, using(files::proofs::Fits::table_fits, files::proofs::Fits::table_taken, files::proofs::Whole::rules_fits, files::proofs::Whole::rules_taken))]
fn run<R: Env + Files>(
    rt: &R,
    asked: Asked,
    rows: &mut [u16],
    rules: &mut [u16],
    names: &mut [u8],
) {
    let Ok((table, n)) = files::table_at(rt, 1, rows) else {
        return;
    };
    let Ok(k) = files::rules_at(rt, 2, rules) else {
        return;
    };
    let Some(m) = files::names_at(rt, 3, names) else {
        return;
    };
    show(asked, table, &rows[..n], &rules[..k], &names[..m]);
}

fn main(rt: HostRuntime) {
    let mut rows = [0u16; 1677];
    let mut rules = [0u16; 2600];
    let mut names = [0u8; 65536];
    match from_words(&rt) {
        Some(asked) => run(&rt, asked, &mut rows, &mut rules, &mut names),
        None => {
            io::write_all(
                STDERR,
                b"patro: not in form: give a BS date (2083 7 29) or a Gregorian date (2026-11-15)\n",
            );
        }
    }
}
