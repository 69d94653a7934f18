// What a list of rules breaks, in words.
ghost use Rattle.std.specs.Prelude.{◌≡◌};
ghost use Rattle.text.specs.Written.{Wrote};
ghost use Rattle.faults.specs.Words.{name_text, range_text, line_of, number_text, lines_text, rule_text, field_text, many_text, fault_text};
ghost use Rattle.faults.specs.Words.{field_line, at_text, line_text, place_text, refusal_text};

use crate::first::{Fault, Field, least, most, number_in};
use rules::Rule;
use std::num::wrapping_add_u64;

// The name of a field.
fn name(f: Field) -> &'static [u8]
    ensures { result.now ≡ name_text f }
{
    match f {
        Field::Kind => b"kind",
        Field::Year => b"year",
        Field::Month => b"month",
        Field::Day => b"day",
        Field::Half => b"half",
        Field::Kala => b"kala",
        Field::Holiday => b"holiday",
    }
}

// Writes the numbers from one to another.
fn put_range(out: &mut [u8], at: usize, low: u16, high: u16) -> usize
    ensures { Wrote out.old at (range_text low high) out.new result }
{
    if low == high {
        return text::put_decimal(out, at, low as u64);
    }
    let a = text::put_decimal(out, at, low as u64);
    let b = text::put(out, a, b" to ");
    text::put_decimal(out, b, high as u64)
}

// The number of a line of the file: k lines behind the eight of each rule before.
#[tactic(auto, unfolding(crate::specs::Words::line_of))]
pub fn line_of(i: usize, k: u64) -> u64
    ensures { result ≡ line_of i k }
{
    let two = wrapping_add_u64(i as u64, i as u64);
    let four = wrapping_add_u64(two, two);
    wrapping_add_u64(wrapping_add_u64(four, four), k)
}

// Writes a rule's number.
fn put_number(out: &mut [u8], at: usize, i: usize) -> usize
    ensures { Wrote out.old at (number_text i) out.new result }
{
    let a = text::put(out, at, b"rule ");
    text::put_decimal(out, a, wrapping_add_u64(i as u64, 1))
}

// Writes a rule's number and its lines.
pub fn put_rule_lines(out: &mut [u8], at: usize, i: usize) -> usize
    ensures { Wrote out.old at (lines_text i) out.new result }
{
    let a = put_number(out, at, i);
    let b = text::put(out, a, b" (lines ");
    let c = text::put_decimal(out, b, line_of(i, 1));
    let d = text::put(out, c, b" to ");
    let e = text::put_decimal(out, d, line_of(i, 8));
    text::put(out, e, b")")
}

// Writes which rule it is, by its number and its kind.
fn put_rule_name(out: &mut [u8], at: usize, i: usize, kind: u16) -> usize
    ensures { Wrote out.old at (rule_text i kind) out.new result }
{
    let a = put_rule_lines(out, at, i);
    let b = text::put(out, a, b", kind ");
    let c = text::put_decimal(out, b, kind as u64);
    text::put(out, c, b": ")
}

// Writes which field of which rule has which number, and what is expected there.
fn put_field_fault(out: &mut [u8], at: usize, i: usize, f: Field, rule: Rule) -> usize
    ensures { Wrote out.old at (field_text i f rule) out.new result }
{
    let a = put_rule_name(out, at, i, rule.kind);
    let b = text::put(out, a, name(f));
    let c = text::put(out, b, b" is ");
    let d = text::put_decimal(out, c, number_in(rule, f) as u64);
    let e = text::put(out, d, b", expected ");
    put_range(out, e, least(f), most(rule, f))
}

// Writes which rule is one more of its kind than allowed.
fn put_many_fault(out: &mut [u8], at: usize, i: usize, kind: u16) -> usize
    ensures { Wrote out.old at (many_text i kind) out.new result }
{
    let a = put_rule_lines(out, at, i);
    let b = text::put(out, a, b" is one too many of kind ");
    let c = text::put_decimal(out, b, kind as u64);
    text::put(
        out,
        c,
        b", expected at most 64 of each of the kinds 1 to 3 and 128 of kind 4",
    )
}

// Writes what a list breaks first.
#[tactic(auto, unfolding(crate::specs::Words::fault_text))]
fn put_fault(out: &mut [u8], at: usize, fault: Option<Fault>) -> usize
    ensures { Wrote out.old at (fault_text fault) out.new result }
{
    match fault {
        None => text::put(out, at, b"no rule is broken"),
        Some(Fault::Uneven) => text::put(out, at, b"its numbers are no whole rules"),
        Some(Fault::At(i, f, rule)) => put_field_fault(out, at, i, f, rule),
        Some(Fault::Many(i, kind)) => put_many_fault(out, at, i, kind),
    }
}

// Which of a rule's eight lines a field has.
fn field_line(f: Field) -> u64
    ensures { result ≡ field_line f }
{
    match f {
        Field::Kind => 1,
        Field::Year => 2,
        Field::Month => 3,
        Field::Day => 4,
        Field::Half => 5,
        Field::Kala => 6,
        Field::Holiday => 8,
    }
}

// Writes a line of a file, behind the file's name.
fn put_at(out: &mut [u8], at: usize, n: u64) -> usize
    ensures { Wrote out.old at (at_text «n») out.new result }
{
    let a = text::put(out, at, b", line ");
    text::put_decimal(out, a, n)
}

// Writes the name of a file and a line of it, before what is said of that line.
pub fn put_line(out: &mut [u8], at: usize, path: &[u8], n: u64) -> usize
    ensures { Wrote out.old at (line_text path.now «n») out.new result }
{
    let a = text::put(out, at, path);
    let b = put_at(out, a, n);
    text::put(out, b, b": ")
}

// Writes the line in which a rule is broken: the field's own, or the first of a rule that is one too many.
#[tactic(auto, unfolding(crate::specs::Words::place_text))]
fn put_place(out: &mut [u8], at: usize, fault: Option<Fault>) -> usize
    ensures { Wrote out.old at (place_text fault) out.new result }
{
    match fault {
        None => at,
        Some(Fault::Uneven) => at,
        Some(Fault::At(i, f, _)) => put_at(out, at, line_of(i, field_line(f))),
        Some(Fault::Many(i, _)) => put_at(out, at, line_of(i, 1)),
    }
}

// Writes the refusal of a list of rules behind the name of its file, with the line and what it breaks first, and answers the place after it.
pub fn put_refusal(out: &mut [u8], at: usize, fault: Option<Fault>) -> usize
    ensures { Wrote out.old at (refusal_text fault) out.new result }
{
    let a = put_place(out, at, fault);
    let b = text::put(out, a, b": refused with 2: ");
    let c = put_fault(out, b, fault);
    text::put(out, c, b"\n")
}
