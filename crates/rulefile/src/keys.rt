// The keys of a rule file's lines.
ghost use Rattle.std.specs.Prelude.{◌≡◌};
ghost use Rattle.rulefile.specs.Files.{rule_form};

// The key of the line that i lines come before.
pub fn key(i: usize) -> &'static [u8]
    ensures { result.now ≡ rule_form.key i }
{
    match i % 8 {
        0 => b"kind",
        1 => b"year",
        2 => b"month",
        3 => b"day",
        4 => b"half",
        5 => b"kala",
        6 => b"name",
        _ => b"holiday",
    }
}
