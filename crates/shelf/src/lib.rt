// The kept state as a list of 4,488 numbers of sixteen bits, as a caller in C keeps it.
// 0 to 3 the table's first year and first day; 4 and 5 how many numbers the rows and the rules have; 6 how many years are stored; 7 the last of them;
// from 8 the rows; from 1,672 the rules; from 4,232 the days of the year before; from 4,360 those of the year. A day is its low half, its high half.
#![tactic(auto)]

ghost use Rattle.std.specs.Prelude.{◌≡◌, ◌++◌, ◌+◌, ◌*◌, ◌/◌, ◌%◌, ◌≤◌, length, get_or, take, drop};
ghost use Rattle.std.proofs.lemmas.List.Edits.{sets};
ghost use Rattle.shelf.specs.Numbers.{halves, head_of, numbers_of};
ghost use Rattle.shelf.specs.Inner.{table_of, days_at, store_in, kept_of, rows_of, placed};

use conversion::Table;
use grid::page::put_at;
use kept::{Kept, Store, front};
use rules::lists::{Resolved, Years};

// The number at place i, and 0 past the end.
fn number_at(numbers: &[u16], i: usize) -> u16
    ensures { result ≡ get_or numbers.now i 0 }
{
    numbers.get(i).copied().unwrap_or(0)
}

// The n numbers from place at on, as far as there are.
fn part(numbers: &[u16], at: usize, n: usize) -> &[u16]
    ensures { result.now ≡ take n (drop at numbers.now) }
{
    front(&numbers[at.min(numbers.len())..], n)
}

// A day from its two halves.
fn whole(low: u16, high: u16) -> u32
    ensures { result ≡ low + 65536 * high }
{
    u32::from(low) + 65536 * u32::from(high)
}

// The 64 days from place at on.
fn days_at(numbers: &[u16], at: usize) -> Resolved
    requires { at ≤ 4488 }
    ensures { result ≡ days_at numbers.now at }
{
    let mut days = [0u32; 64];
    for i in 0..64 {
        let k = at + i * 2;
        days[i] = whole(number_at(numbers, k), number_at(numbers, k + 1));
    }
    Resolved { days }
}

// The table without its rows.
pub fn table_of(numbers: &[u16]) -> Table
    ensures { result ≡ table_of numbers.now }
{
    Table {
        first_year: number_at(numbers, 0),
        year: number_at(numbers, 1),
        month: number_at(numbers, 2),
        day: number_at(numbers, 3),
    }
}

// The table's rows, where they stand.
pub fn rows_of(numbers: &[u16]) -> &[u16]
    ensures { result.now ≡ rows_of numbers.now }
{
    part(numbers, 8, usize::from(number_at(numbers, 4)))
}

// The stored years.
fn store_of(numbers: &[u16]) -> Store
    ensures { result ≡ store_in numbers.now }
{
    Store {
        count: number_at(numbers, 6),
        year: number_at(numbers, 7),
        years: Years {
            before: days_at(numbers, 4232),
            this: days_at(numbers, 4360),
        },
    }
}

// The state that a list holds. Inlined, so that a caller that reads little of a state copies little.
#[inline(always)]
pub fn kept_of(numbers: &[u16]) -> Kept
    ensures { result ≡ kept_of numbers.now }
{
    let mut rows = [0u16; 1664];
    put_at(&mut rows, 0, part(numbers, 8, 1664));
    let mut rules = [0u16; 2560];
    put_at(&mut rules, 0, part(numbers, 1672, 2560));
    Kept {
        table: table_of(numbers),
        rows,
        row_len: usize::from(number_at(numbers, 4)),
        rules,
        rule_len: usize::from(number_at(numbers, 5)),
        store: store_of(numbers),
    }
}

// The eight numbers at the front.
fn head_of(state: Kept) -> [u16; 8]
    requires { (state.row_len ≤ 65535) × (state.rule_len ≤ 65535) }
    ensures { result ≡ head_of state }
{
    [
        state.table.first_year,
        state.table.year,
        state.table.month,
        state.table.day,
        state.row_len as u16,
        state.rule_len as u16,
        state.store.count,
        state.store.year,
    ]
}

// Stores 64 days from place at on.
fn put_days(out: &mut [u16], at: usize, entries: Resolved)
    requires { at + 128 ≤ length out.old }
    ensures { out.new ≡ sets out.old at (halves entries.days) }
{
    for i in 0..64 {
        let day = entries.days[i];
        let k = at + i * 2;
        out[k] = (day % 65536) as u16;
        out[k + 1] = (day / 65536) as u16;
    }
}

// Stores a state at the front of a list that has room.
fn put_all(state: Kept, out: &mut [u16])
    requires in_bounds { 4488 ≤ length out.old }
    requires row_len_bound { (state.row_len ≤ 65535) × (state.rule_len ≤ 65535) }
    ensures { out.new ≡ numbers_of state ++ drop 4488 out.old }
{
    put_at(out, 0, &head_of(state));
    put_at(out, 8, &state.rows);
    put_at(out, 1672, &state.rules);
    put_days(out, 4232, state.store.years.before);
    put_days(out, 4360, state.store.years.this);
}

// Stores a state at the front of a list; where there is no room, or a length is above 65,535, nothing.
pub fn put(state: Kept, out: &mut [u16])
    ensures { out.new ≡ placed state out.old }
{
    if 4488 <= out.len() && state.row_len <= 65535 && state.rule_len <= 65535 {
        put_all(state, out);
    }
}
