// Columns of numbers in a lent list: their sums, and where a number of days falls among them.
ghost use Rattle.std.specs.Prelude.{◌≡◌, cond, ◌+◌, ◌≤◌, length};
ghost use Rattle.conversion.specs.Inner.{column, Inside, Summed, FoundAt};

// A place in a row of lengths, and what is left there.
#[derive(Clone, Copy)]
pub struct Spot {
    pub index: usize,
    pub rest: u32,
}

// The sum of count numbers of a table, every step-th from at.
pub fn span(rows: &[u16], at: usize, step: usize, count: usize) -> u32
    requires { Inside rows.now at step count }
    ensures { Summed (column rows.now at step) count result }
{
    let mut total: u32 = 0;
    for i in 0..count {
        total += rows[at + step * i] as u32;
    }
    total
}

// A number where it counts, and else 0.
fn counted(len: u32, counts: bool) -> u32
    ensures { result ≡ cond counts len 0 }
{
    if counts { len } else { 0 }
}

// The sum of the first count of the twelve numbers of a table from at on. All twelve are read, so that no jump hangs on count.
pub fn months_span(rows: &[u16], at: usize, count: usize) -> u32
    requires { (at + 12 ≤ length rows.now) × (count ≤ 12) }
    ensures { Summed (column rows.now at 1) count result }
{
    let mut total: u32 = 0;
    for m in 0..12 {
        let len = rows[at + m] as u32;
        total += counted(len, m < count);
    }
    total
}

// Which of count numbers, every step-th from at, day lies in after the ones before it are taken off.
pub fn find(rows: &[u16], at: usize, step: usize, count: usize, day: u32) -> Spot
    requires { Inside rows.now at step count }
    ensures { FoundAt (column rows.now at step) count day result.index result.rest }
{
    let mut rest = day;
    for i in 0..count {
        let len = rows[at + step * i] as u32;
        if rest < len {
            return Spot { index: i, rest };
        }
        rest -= len;
    }
    Spot { index: count, rest }
}
