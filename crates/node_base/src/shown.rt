//! Tokens as they are printed.
ghost use Rattle.std.specs.Prelude.{◌≡◌, ◌<◌, Some};
ghost use Rattle.node_base.specs.Refusals.{shown_byte, shown_token};

use std::fmt;

/// A token as it is printed: `?` for each byte that isn't printable ASCII.
#[derive(Drop)]
pub struct ShownToken<'a>(pub &'a [u8]);

impl fmt::Display for ShownToken<'_> {
    ghost output = { λ t. Some (shown_token t.0.now) };

    fn fmt<W: fmt::Write>(&self, f: &mut fmt::Formatter<W>) -> fmt::Result {
        for byte in self.0 {
            f.write_char(char::from(shown_byte(*byte)))?;
        }
        Ok(())
    }
}

/// A byte of a token as it is printed: `?` where it isn't printable ASCII.
pub fn shown_byte(byte: u8) -> u8
    ensures shown { result ≡ shown_byte byte }
    ensures ascii { result < 128 }
{
    if (0x20..=0x7E).contains(&byte) {
        byte
    } else {
        b'?'
    }
}
