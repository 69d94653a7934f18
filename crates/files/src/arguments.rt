// The arguments of a program, and the files that they name. What is wrong with a file is said on standard error, in one line.
ghost use Rattle.std.specs.Prelude.{◌≤◌, length};
ghost use Rattle.files.specs.File.{ReadsTable};
ghost use Rattle.files.specs.Texts.{ReadsRules, ReadsNames};

use crate::problems::Problem;
use crate::{RulesFault, listing, telling, texts};
use conversion::Table;
use std::env::FillError;
use std::rt::{Env, Files};

// How many arguments the program was started with, its own name among them.
pub fn argument_count<R: Env>(rt: &R) -> usize {
    let mut front = [0u8; 1];
    for i in 0..usize::MAX {
        if let Err(FillError::NotPresent) = rt.arg(i, &mut front) {
            return i;
        }
    }
    usize::MAX
}

// Puts argument i at the front of a lent buffer and answers its length, 0 where it is missing or longer than the buffer.
pub fn argument<R: Env>(rt: &R, i: usize, buffer: &mut [u8]) -> usize
    ensures { result ≤ length buffer.new }
{
    rt.arg(i, buffer).unwrap_or(0)
}

// The year table in the file that argument i names.
pub fn table_at<R: Env + Files>(
    rt: &R,
    i: usize,
    rows: &mut [u16],
) -> Result<(Table, usize), Problem>
    ensures { ReadsTable rows.old result rows.new }
{
    let mut path = [0u8; 4096];
    let n = argument(rt, i, &mut path);
    let mut file = texts::open(rt, &path[..n]);
    let r = crate::read_table(&mut file, rows);
    telling::tell_table(&mut file, &path[..n], r, rows);
    r
}

// The rules in the file that argument i names.
pub fn rules_at<R: Env + Files>(rt: &R, i: usize, rules: &mut [u16]) -> Result<usize, RulesFault>
    ensures { ReadsRules rules.old result rules.new }
{
    let mut path = [0u8; 4096];
    let n = argument(rt, i, &mut path);
    listing::rules_named(rt, &path[..n], rules)
}

// The same, and no rule where the program has fewer arguments, of which its own name is one.
pub fn rules_asked<R: Env + Files>(
    rt: &R,
    i: usize,
    count: usize,
    rules: &mut [u16],
) -> Result<usize, RulesFault>
    ensures { ReadsRules rules.old result rules.new }
{
    if i < count {
        return rules_at(rt, i, rules);
    }
    Ok(0)
}

// The names in the file that argument i names.
pub fn names_at<R: Env + Files>(rt: &R, i: usize, names: &mut [u8]) -> Option<usize>
    ensures { ReadsNames result names.new }
{
    let mut path = [0u8; 4096];
    let n = argument(rt, i, &mut path);
    listing::names_named(rt, &path[..n], names)
}

// The same, and no name where the program has fewer arguments.
pub fn names_asked<R: Env + Files>(
    rt: &R,
    i: usize,
    count: usize,
    names: &mut [u8],
) -> Option<usize>
    ensures { ReadsNames result names.new }
{
    if i < count {
        return names_at(rt, i, names);
    }
    Some(0)
}
