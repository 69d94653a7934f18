// UTF-8 as RFC 3629 has it: which bytes make a character.
ghost use Rattle.std.specs.Prelude.{◌≡◌};
ghost use Rattle.utf8.specs.Utf8 as Utf8;

// How many bytes follow the first byte of a character, where one begins with it.
#[tactic(auto, unfolding(crate::specs::Utf8::follow))]
fn follow(b: u8) -> Option<usize>
    ensures { result ≡ Utf8.followed b }
{
    match b {
        0..=127 => Some(0),
        194..=223 => Some(1),
        224..=239 => Some(2),
        240..=244 => Some(3),
        _ => None,
    }
}

// The least byte that may follow it.
#[tactic(auto, unfolding(crate::specs::Utf8::low))]
fn low(b: u8) -> u8
    ensures { result ≡ Utf8.low b }
{
    match b {
        224 => 160,
        240 => 144,
        _ => 128,
    }
}

// The greatest byte that may follow it.
#[tactic(auto, unfolding(crate::specs::Utf8::high))]
fn high(b: u8) -> u8
    ensures { result ≡ Utf8.high b }
{
    match b {
        237 => 159,
        244 => 143,
        _ => 191,
    }
}

// Whether a text is UTF-8.
pub fn is_utf8(s: &[u8]) -> bool
    ensures { result ≡ Utf8.utf8 s.now }
{
    let mut left = 0;
    let mut least: u8 = 128;
    let mut most: u8 = 191;
    for b in s {
        if left == 0 {
            let Some(n) = follow(*b) else {
                return false;
            };
            left = n;
            least = low(*b);
            most = high(*b);
            continue;
        }
        if *b < least {
            return false;
        }
        if most < *b {
            return false;
        }
        left -= 1;
        least = 128;
        most = 191;
    }
    left == 0
}
