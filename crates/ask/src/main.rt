// Answers the lines of standard input over the year table and the rules that two files hold: ask TABLE RULES.
#![tactic(auto)]

ghost use Rattle.std.specs.Prelude.{◌≡◌, length};

use conversion::Table;
use files::RulesFault;
use lending::Lent;
use output::STDERR;
use std::rt::{Env, Files};

// How many numbers of the rules are lent, of rules that are refused one, which is no list of rules: what needs them is refused with 2. None of a file that
// could not be read or is out of form.
fn lent_numbers(read: Result<usize, RulesFault>) -> Option<usize> {
    match read {
        Ok(n) => Some(n),
        Err(RulesFault::Refused) => Some(1),
        Err(RulesFault::NotRead) => None,
    }
}

// The text that lines lend, with no byte lent yet: zeros. Its length is what lending it needs.
fn no_text() -> [u8; 524288]
    ensures { 524288 ≡ length result }
{
    [0; 524288]
}

// Reads the rules and answers over them, the table and a text that is empty at first.
fn over_rules<R: Env + Files + Input>(rt: &R, table: Table, cells: usize, rows: &mut [u16]) {
    let mut rules = [0u16; 2600];
    let Some(numbers) = lent_numbers(files::rules_at(rt, 2, &mut rules)) else {
        return;
    };
    let mut text = no_text();
    let lent = Lent {
        table,
        cells,
        numbers,
        octets: 0,
    };
    desk::answer_from(&mut rt.reader(), lent, rows, &mut rules, &mut text);
}

// Reads the table, then the rules, and answers; or says what is wrong with the first file that is out of form.
fn over_files<R: Env + Files + Input>(rt: &R) {
    let mut rows = [0u16; 1700];
    let Ok((table, cells)) = files::table_at(rt, 1, &mut rows) else {
        return;
    };
    over_rules(rt, table, cells, &mut rows);
}

// Whether argument i is there and has the length of a path.
fn is_path<R: Env>(rt: &R, i: usize) -> bool {
    let mut path = io::buffer();
    rt.arg(i, &mut path).is_ok()
}

fn main(rt: HostRuntime) {
    if files::argument_count(&rt) != 3 {
        io::write_all(STDERR, b"usage: ask TABLE RULES < queries\n");
        return;
    }
    if !is_path(&rt, 1) {
        io::write_all(STDERR, b"ask: TABLE: File name too long\n");
        return;
    }
    if !is_path(&rt, 2) {
        io::write_all(STDERR, b"ask: RULES: File name too long\n");
        return;
    }
    over_files(&rt);
}
