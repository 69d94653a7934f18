// The rules of a file and the names of another, read as texts. What is wrong with one is told on standard error.
ghost use Rattle.std.specs.Prelude.{◌≡◌, ◌≤◌, length};
ghost use Rattle.files.specs.Texts.{refused_as, Gives, ReadsRules, names_as, ReadsNames};

use crate::{telling, texts};
use paper::Refusal;
use std::rt::Files;

// Why there are no rules: they are in form and refused with 2, or not read.
#[derive(Clone, Copy)]
pub enum RulesFault {
    Refused,
    NotRead,
}

// What comes of a refusal, which is told.
#[tactic(auto, unfolding(crate::specs::Texts::refused_as))]
fn refused(path: &[u8], text: &[u8], why: Refusal) -> RulesFault
    ensures { result ≡ refused_as why }
{
    match why {
        Refusal::BadRules => {
            telling::tell_refused(path, text);
            RulesFault::Refused
        }
        _ => {
            telling::tell_out_of_form(path, text);
            RulesFault::NotRead
        }
    }
}

// How many numbers the rules in a text have, from the front of the lent buffer.
fn rules_in(path: &[u8], text: &[u8], rules: &mut [u16]) -> Result<usize, RulesFault>
    ensures { Gives text.now rules.old result rules.new }
{
    match rulefile::read_rules(text, rules) {
        Ok(k) => Ok(k * 8),
        Err(why) => Err(refused(path, text, why)),
    }
}

// The same of the file that a path names.
pub fn rules_named<R: Files>(rt: &R, path: &[u8], rules: &mut [u16]) -> Result<usize, RulesFault>
    ensures { ReadsRules rules.old result rules.new }
{
    let mut text = [0u8; 65536];
    match texts::read_named(rt, path, &mut text) {
        Ok(n) => rules_in(path, &text[..n], rules),
        Err(p) => {
            telling::report(path, p);
            Err(RulesFault::NotRead)
        }
    }
}

// Whether the first n bytes of a text are a file of names.
fn names_in(path: &[u8], text: &[u8], n: usize) -> Option<usize>
    requires { n ≤ length text.now }
    ensures { result ≡ names_as «n» text.now }
{
    match naming::check(&text[..n]) {
        Ok(()) => Some(n),
        Err((line, fault)) => {
            telling::tell_name(path, line, fault);
            None
        }
    }
}

// The names in the file that a path names.
pub fn names_named<R: Files>(rt: &R, path: &[u8], names: &mut [u8]) -> Option<usize>
    ensures { ReadsNames result names.new }
{
    match texts::read_named(rt, path, names) {
        Ok(n) => names_in(path, names, n),
        Err(p) => {
            telling::report(path, p);
            None
        }
    }
}
