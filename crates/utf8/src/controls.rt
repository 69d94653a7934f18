// Control characters in a text.
ghost use Rattle.std.specs.Prelude.{◌≡◌};
ghost use Rattle.utf8.specs.Controls as Controls;
ghost use Rattle.utf8.specs.Controls.{first_control, clear};

// Whether a byte is a control character; the flag lets a line feed pass.
fn control(feed: bool, b: u8) -> bool
    ensures { result ≡ Controls.control feed b }
{
    if feed & (b == 10) {
        return false;
    }
    (b < 32) | (b == 127)
}

// The first control character of a text, but for line feeds where the flag lets them pass.
pub fn first_control(s: &[u8], feed: bool) -> Option<u8>
    ensures { result ≡ first_control feed s.now }
{
    s.iter().copied().find(|b| control(feed, *b))
}

// Whether a text has no control character, but for line feeds where the flag lets them pass.
pub fn is_clear(s: &[u8], feed: bool) -> bool
    ensures { result ≡ clear feed s.now }
{
    first_control(s, feed).is_none()
}
