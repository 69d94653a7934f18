// What lines lend: `table` begins a table and `cells` adds numbers to it, `rules` begins a rule list and `rule` adds numbers to it, `text` begins a text and
// `octets` adds bytes to it.
#![tactic(auto)]

ghost use Rattle.std.specs.Prelude.{◌≡◌, ◌≤◌, [], ◌∷◌};
ghost use Rattle.text.specs.Written.{Wrote};
ghost use Rattle.lending.specs.Lending.{numbers_in, in_form, lending_of, lends, numbers_of, line_numbers, table_in, no_loan, loan_of, loan_after};

use asked::{Octets, Words, tags};
use conversion::Table;

// A table, how many numbers its rows have, how many the rule list has, and how many bytes the text has.
#[derive(Clone, Copy)]
pub struct Lent {
    pub table: Table,
    pub cells: usize,
    pub numbers: usize,
    pub octets: usize,
}

// What a line lends: a new table, a new rule list, a new text, so many cells more, so many numbers of rules more, or bytes of the text more.
#[derive(Clone, Copy)]
pub enum Lending {
    Table,
    Rules,
    Text,
    Cells(usize),
    Numbers(usize),
    Octets,
}

// Nothing yet.
pub fn nothing() -> Lent
    ensures { result ≡ no_loan }
{
    Lent {
        table: Table {
            first_year: 0,
            year: 0,
            month: 0,
            day: 0,
        },
        cells: 0,
        numbers: 0,
        octets: 0,
    }
}

// How many numbers up to 65,535 a form is, from 1 to most; 0 for any other form.
fn count_of(form: u64, most: usize) -> usize
    requires { most ≤ 16 }
    ensures { result ≡ numbers_in form most }
{
    let mut ones: u64 = 0;
    for n in 0..most {
        ones = ones * 10 + 1;
        if form == ones {
            return n + 1;
        }
    }
    0
}

// How many numbers up to 65,535 a form is, from 1 to 15, and 16 for all larger counts; 0 for any other form.
pub fn count_in(form: u64) -> usize
    ensures { result ≡ numbers_in «form» 16 }
{
    count_of(form, 16)
}

// What a line lends where it has its form.
fn alone(good: bool, lending: Lending) -> Option<Lending>
    ensures { result ≡ in_form good lending }
{
    good.then_some(lending)
}

// What a line of this tag and form, and of so many bytes, lends, or none.
fn lending_of(tag: u64, form: u64, bytes: usize) -> Option<Lending>
    ensures { result ≡ lending_of tag form «bytes» }
{
    if 0 < bytes {
        return Some(Lending::Octets);
    }
    if tag == tags::TABLE {
        return alone(form == 1111, Lending::Table);
    }
    if tag == tags::CELLS {
        return Some(Lending::Cells(count_of(form, 13)));
    }
    if tag == tags::RULES {
        return alone(form == 0, Lending::Rules);
    }
    if tag == tags::RULE {
        return Some(Lending::Numbers(count_of(form, 8)));
    }
    if tag == tags::TEXT {
        return alone(form == 0, Lending::Text);
    }
    None
}

// Whether a line lends, and so answers nothing.
pub fn is_lending(w: Words, x: Octets) -> bool
    ensures { result ≡ lends (lending_of w.tag w.form x.count) }
{
    match lending_of(w.tag, w.form, x.count) {
        Some(Lending::Cells(n)) => 0 < n,
        Some(Lending::Numbers(n)) => 0 < n,
        Some(_) => true,
        None => false,
    }
}

// One number more, if there is room.
fn put(list: &mut [u16], at: usize, x: u16) -> usize
    ensures { Wrote list.old at (x ∷ []) list.new result }
{
    if at < list.len() {
        list[at] = x;
        return at + 1;
    }
    at
}

// The first n words of a line at the end of a list.
fn append(list: &mut [u16], from: usize, w: Words, n: usize) -> usize
    requires { n ≤ 16 }
    ensures { Wrote list.old from (numbers_of w n) list.new result }
{
    let mut at = from;
    for i in 0..n {
        at = put(list, at, w.small(i + 1));
    }
    at
}

// The numbers of a line that has numbers up to 65,535 alone, at the front of a list, and how many they are.
pub fn put_numbers(list: &mut [u16], w: Words) -> usize
    ensures { Wrote list.old 0 (line_numbers w) list.new result }
{
    append(list, 0, w, count_in(w.form))
}

// The table that a line begins.
pub fn table_in(w: Words) -> Table
    ensures { result ≡ table_in w }
{
    Table {
        first_year: w.small(1),
        year: w.small(2),
        month: w.small(3),
        day: w.small(4),
    }
}

// What is lent after a line of these words or bytes.
pub fn lend(
    lent: Lent,
    rows: &mut [u16],
    rules: &mut [u16],
    text: &mut [u8],
    w: Words,
    x: Octets,
) -> Lent
    ensures { loan_of result rows.new rules.new text.new ≡ loan_after (loan_of lent rows.old rules.old
        text.old) w x }
{
    let Some(lending) = lending_of(w.tag, w.form, x.count) else {
        return lent;
    };
    match lending {
        Lending::Table => Lent {
            table: table_in(w),
            cells: 0,
            ..lent
        },
        Lending::Rules => Lent { numbers: 0, ..lent },
        Lending::Text => Lent { octets: 0, ..lent },
        Lending::Cells(n) => Lent {
            cells: append(rows, lent.cells, w, n),
            ..lent
        },
        Lending::Numbers(n) => Lent {
            numbers: append(rules, lent.numbers, w, n),
            ..lent
        },
        Lending::Octets => Lent {
            octets: x.put(text, lent.octets),
            ..lent
        },
    }
}
