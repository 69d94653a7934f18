// One state that keeps a year table, rules and the resolved years of the last answered question.
#![tactic(auto)]

pub mod asking;
pub mod converting;
pub mod months;
mod years;

ghost use Rattle.std.specs.Prelude.{◌≡◌, ◌++◌, ◌+◌, ◌≤◌, length, take};
ghost use Rattle.kept.specs.State.{startable, year_numbers};
ghost use Rattle.kept.specs.Operations.{take_rules, append_row, forgotten};
ghost use Rattle.kept.specs.Held.{held, padded, Ready, Holds, StartedAs, DoneAs, stored_says};
ghost use Rattle.kept.specs.Inner.{with_store, done, asked, HoldsAnswer, taking};

use crate::years::{no_years, renewed};
use conversion::Table;
use festivals::years::year_before;
use grid::page::put_at;
use paper::{Answer, Refusal};
use rules::lists::Years;

// The resolved years that are stored: none (count 0), a year (1), or the year before it and the year (2).
// A count and no enum: crate shelf reads any number as the count and writes it back as it stands (`kept_of`, `numbers_of`).
#[derive(Clone, Copy)]
pub struct Store {
    pub count: u16,
    pub year: u16,
    pub years: Years,
}

// The state: the first row_len numbers of rows are the year table's, the first rule_len of rules the rules'.
#[derive(Clone, Copy)]
pub struct Kept {
    pub table: Table,
    pub rows: [u16; 1664],
    pub row_len: usize,
    pub rules: [u16; 2560],
    pub rule_len: usize,
    pub store: Store,
}

// What is answered, and the state after it: what is refused leaves the state as it was, and a state whose start is refused is not to be asked.
#[derive(Clone, Copy)]
pub struct After<T> {
    pub answer: Answer<T>,
    pub state: Kept,
}

// Which BS years are stored, rising: none is one of three kinds here, and no missing value.
#[derive(Clone, Copy)]
pub enum StoredYears {
    Nothing,
    One(u16),
    Two(u16, u16),
}

// The first n numbers of a list, or all that there are.
pub fn front(list: &[u16], n: usize) -> &[u16]
    ensures { result.now ≡ take n list.now }
{
    &list[..n.min(list.len())]
}

// A state with other stored years.
fn with_store(state: Kept, store: Store) -> Kept
    ensures { result ≡ with_store state store }
{
    Kept { store, ..state }
}

// The state after an operation: a refused one leaves it as it was.
fn done(state: Kept, made: Answer<Kept>) -> After<()>
    ensures { result ≡ done state made }
{
    match made {
        Ok(after) => After {
            answer: Ok(()),
            state: after,
        },
        Err(k) => After {
            answer: Err(k),
            state,
        },
    }
}

// The state after a question, with the years that its answer drew from; a refused one leaves it as it was.
fn asked<T>(state: Kept, drawn: Answer<(T, Store)>) -> After<T>
    ensures { result ≡ asked state drawn }
{
    match drawn {
        Ok((value, store)) => After {
            answer: Ok(value),
            state: with_store(state, store),
        },
        Err(k) => After {
            answer: Err(k),
            state,
        },
    }
}

// Whether a table may have this first year and this first day.
fn can_start(table: Table) -> bool
    ensures { result ≡ startable table }
{
    if !(1..=3000).contains(&table.first_year) {
        return false;
    }
    let Ok(first) = conversion::first_day(table) else {
        return false;
    };
    (2415386..=2488069).contains(&first)
}

// A state with no row, no rules and no stored year. Refusal 1.
pub fn start(table: Table) -> After<()>
    ensures { StartedAs result table }
{
    let state = Kept {
        table,
        rows: [0; 1664],
        row_len: 0,
        rules: [0; 2560],
        rule_len: 0,
        store: no_years(),
    };
    let answer = if can_start(table) {
        Ok(())
    } else {
        Err(Refusal::BadTable)
    };
    After { answer, state }
}

// The state without its stored years.
pub fn forget(state: Kept) -> Kept
    ensures { Ready state → Holds result (forgotten (held state)) }
{
    with_store(state, no_years())
}

// Which years are stored.
pub fn stored(state: Kept) -> StoredYears
    ensures { stored_says result ≡ year_numbers (held state).stored }
{
    let store = state.store;
    match store.count {
        0 => StoredYears::Nothing,
        1 => StoredYears::One(store.year),
        _ => StoredYears::Two(year_before(store.year), store.year),
    }
}

// The state with these rules in place of its own, and no stored year, if they are accepted.
fn with_rules(state: &Kept, list: &[u16]) -> Answer<Kept>
    ensures { Ready state.now → HoldsAnswer result (taking (held state.now) list.now) }
{
    if !rules::accepts_rules(list) {
        return Err(Refusal::BadRules);
    }
    let mut rules = [0u16; 2560];
    put_at(&mut rules, 0, list);
    Ok(Kept {
        rules,
        rule_len: list.len(),
        store: no_years(),
        ..*state
    })
}

// The state with these rules in place of its own, and no stored year. Refusal 2.
pub fn take_rules(state: Kept, list: &[u16]) -> After<()>
    ensures { Ready state → DoneAs result (take_rules (held state) list.now) }
{
    done(state, with_rules(&state, list))
}

// The rows of a table with one row more, and 0 behind them.
fn with_row(rows: &[u16], row: &[u16]) -> [u16; 1664]
    requires { length rows.now + length row.now ≤ 1664 }
    ensures { result ≡ padded 1664 (rows.now ++ row.now) }
{
    let mut all = [0u16; 1664];
    put_at(&mut all, 0, rows);
    put_at(&mut all, rows.len(), row);
    all
}

// The state with one year row more, if the table is accepted with it; the stored years are resolved anew. Refusal 1.
pub fn append_row(state: Kept, row: &[u16]) -> After<()>
    ensures { Ready state → DoneAs result (append_row (held state) row.now) }
{
    let before = front(&state.rows, state.row_len);
    let rules = front(&state.rules, state.rule_len);
    if row.len() != 13 || 1651 < before.len() {
        return After {
            answer: Err(Refusal::BadTable),
            state,
        };
    }
    let rows = with_row(before, row);
    let row_len = before.len() + 13;
    let longer = front(&rows, row_len);
    // No `?`: the state is built where it is handed back, so that it is copied once.
    match rules::accept(state.table, longer, rules) {
        Ok(()) => {
            let store = renewed(state.table, longer, rules, state.store);
            After {
                answer: Ok(()),
                state: Kept {
                    rows,
                    row_len,
                    store,
                    ..state
                },
            }
        }
        Err(k) => After {
            answer: Err(k),
            state,
        },
    }
}
