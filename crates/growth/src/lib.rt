// What a longer year table adds: the page on a table and the same with rows added.
#![tactic(auto)]

ghost use Rattle.std.specs.Prelude.{◌≡◌, true};
ghost use Rattle.output.specs.Gathered.{gathered};
ghost use Rattle.conversion.specs.Flat.{accepted, flat};
ghost use Rattle.rules.specs.Rules.{rules_of};
ghost use Rattle.output.specs.Pieces.{Puts};
ghost use Rattle.growth.specs.Growth.{same_first, Grown, last_year, days_pieces, line_pieces, years_pieces, tables_pieces};
ghost use Rattle.growth.specs.Growth.{same_pieces, new_pieces, gained_pieces, added_page, grown_page};

use conversion::Table;
use festivals::months;
use output::Out;

// Whether two tables begin with the same year and day.
pub fn same_first(a: Table, b: Table) -> bool
    ensures { result ≡ same_first a b }
{
    a == b
}

// The year of the last row of an accepted table.
fn last_year(table: Table, rows: &[u16]) -> u16
    requires { accepted table rows.now ≡ true }
    ensures { result ≡ last_year (flat table rows.now) }
{
    table.first_year + (conversion::year_count(rows) - 1) as u16
}

// From one day to another.
fn put_first_to_last(o: Out, out: &mut [u8], first: u32, last: u32) -> Out
    ensures { Puts out.old o (days_pieces first last) out.new result }
{
    let a = output::put_text(o, out, b", ");
    let b = output::put_date(a, out, first);
    let c = output::put_text(b, out, b" to ");
    output::put_date(c, out, last)
}

// One line on years and their days.
fn put_years_line(
    o: Out,
    out: &mut [u8],
    label: &[u8],
    year: u16,
    last: u16,
    first_day: u32,
    last_day: u32,
) -> Out
    ensures { Puts out.old o (line_pieces label.now year last first_day last_day) out.new result }
{
    let a = output::put_labelled(o, out, label, year as u64);
    let b = output::put_labelled(a, out, b" to ", last as u64);
    let c = put_first_to_last(b, out, first_day, last_day);
    output::put_text(c, out, b"\n")
}

// One line on the years of an accepted table from one to another.
fn put_years_of(
    o: Out,
    out: &mut [u8],
    label: &[u8],
    table: Table,
    rows: &[u16],
    year: u16,
    last: u16,
) -> Out
    requires { accepted table rows.now ≡ true }
    ensures { Puts out.old o (years_pieces (flat table rows.now) label.now year last) out.new result }
{
    let Some((first_day, _)) = months::year_days(table, rows, year) else {
        return o;
    };
    let Some((_, last_day)) = months::year_days(table, rows, last) else {
        return o;
    };
    put_years_line(o, out, label, year, last, first_day, last_day)
}

// The lines on both tables.
fn put_both_tables(
    o: Out,
    out: &mut [u8],
    table: Table,
    old: &[u16],
    new_table: Table,
    new: &[u16],
) -> Out
    requires { (accepted table old.now ≡ true) × (accepted new_table new.now ≡ true) }
    ensures { Puts out.old o (tables_pieces (flat table old.now) (flat new_table new.now)) out.new result }
{
    let a = put_years_of(
        o,
        out,
        b"OLD: accepted, BS ",
        table,
        old,
        table.first_year,
        last_year(table, old),
    );
    put_years_of(
        a,
        out,
        b"NEW: accepted, BS ",
        new_table,
        new,
        new_table.first_year,
        last_year(new_table, new),
    )
}

// What stays, and by which theorem.
fn put_what_stays(o: Out, out: &mut [u8]) -> Out
    ensures { Puts out.old o same_pieces out.new result }
{
    let a = output::put_text(
        o,
        out,
        b"What OLD answers NEW answers with the same numbers: dates, month lengths, month steps, day lists, holidays, month grids.\n",
    );
    let b = output::put_text(
        a,
        out,
        b"  theorem `steady`, crates/steady/proofs/Steady.antt",
    );
    output::put_text(
        b,
        out,
        b"; for dates `steady`, crates/conversion/proofs/Theorems.antt\n",
    )
}

// What is new, and by which theorem.
fn put_what_is_new(o: Out, out: &mut [u8]) -> Out
    ensures { Puts out.old o new_pieces out.new result }
{
    let a = output::put_text(
        o,
        out,
        b"What NEW answers OLD refuses exactly if it lies in an added year.\n",
    );
    output::put_text(a, out, b"  the same theorem, its fields `added`\n")
}

// The years from one to another as gained, and what cannot have changed.
fn put_gained_years(o: Out, out: &mut [u8], table: Table, new: &[u16], year: u16, last: u16) -> Out
    requires { accepted table new.now ≡ true }
    ensures { Puts out.old o (gained_pieces (flat table new.now) year last) out.new result }
{
    let a = put_years_of(o, out, b"Added: BS ", table, new, year, last);
    let b = put_what_stays(a, out);
    put_what_is_new(b, out)
}

// The years after one, up to the last: what cannot have changed, the doubtful new moons, and how many there are.
fn put_added_years(
    o: Out,
    out: &mut [u8],
    table: Table,
    new: &[u16],
    year: u16,
    last: u16,
    rules: &[u16],
    names: &[u8],
) -> Out
    requires { accepted table new.now ≡ true }
    ensures { gathered out.new result ≡ added_page (flat table new.now) (rules_of rules.now)
        names.now year last (gathered out.old o) }
{
    if last <= year {
        return output::put_text(o, out, b"Added: nothing\n");
    }
    let next = year + 1;
    let a = put_gained_years(o, out, table, new, next, last);
    let p = doubtful::put_years(
        doubtful::page_with(a),
        out,
        table,
        new,
        next,
        last,
        rules,
        names,
    );
    let q = p.out;
    doubtful::put_counts(p, q, out)
}

// The page on an accepted table and the same with rows added.
pub fn put_growth(
    o: Out,
    out: &mut [u8],
    table: Table,
    old: &[u16],
    new_table: Table,
    new: &[u16],
    rules: &[u16],
    names: &[u8],
) -> Out
    requires { ((accepted table old.now ≡ true) × (accepted new_table new.now ≡ true)) × Grown table old.now new_table new.now }
    ensures { gathered out.new result ≡ grown_page (flat new_table new.now) (rules_of rules.now) names.now
        (flat table old.now) (gathered out.old o) }
{
    let a = put_both_tables(o, out, table, old, new_table, new);
    let year = last_year(table, old);
    let last = last_year(new_table, new);
    put_added_years(a, out, new_table, new, year, last, rules, names)
}
