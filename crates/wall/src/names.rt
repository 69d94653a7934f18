// The name of a festival, found by its number in a file of names and written.
ghost use Rattle.text.specs.Written.{Wrote};
ghost use Rattle.wall.specs.Names.{numbered, name_text};

// Writes what stands for a name without text.
fn put_number(out: &mut [u8], at: usize, n: u16) -> usize
    ensures { Wrote out.old at (numbered «n») out.new result }
{
    let a = text::put(out, at, b"name ");
    text::put_decimal(out, a, n as u64)
}

// Writes the name of number n in a file of names, or `name` and the number where it has no text, and answers the place after it.
pub fn put_festival_name(out: &mut [u8], at: usize, n: u16, names: &[u8]) -> usize
    ensures { Wrote out.old at (name_text «n» names.now) out.new result }
{
    if naming::has_name(names, n) {
        return naming::put_name(out, at, names, n);
    }
    put_number(out, at, n)
}
