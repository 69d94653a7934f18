// The first characters of a text, whatever its bytes are.
ghost use Rattle.std.specs.Prelude.{◌≡◌, length};
ghost use Rattle.utf8.specs.Characters.{goes_on, front};

// Whether a byte goes on with the character before it.
fn goes_on(b: u8) -> bool
    ensures { result ≡ goes_on b }
{
    (128 <= b) & (b <= 191)
}

// How many bytes the first characters of a text take, so many of them at most.
pub fn front_length(s: &[u8], most: usize) -> usize
    ensures { result ≡ length (front most s.now) }
{
    let mut left = most;
    for (i, b) in s.iter().enumerate() {
        if goes_on(*b) {
            continue;
        }
        if left == 0 {
            return i;
        }
        left -= 1;
    }
    s.len()
}
