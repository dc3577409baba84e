//! The text of a file as it is sent: in strings, with its sum.

ghost use Rattle.std.specs.Prelude.{◌≡◌};
ghost use Rattle.hex.specs.Hex.{encode_lower};
ghost use Rattle.ra_serve.specs.Answers.{strings, text_bytes, text_wanted};
ghost use Rattle.ra_item.specs.Writing.{Writes};

use ra_item::writer::write_text;
use ra_wire::reply_writer::write_done;
use std::io;
use std::io::Write;

// How long a string may be in which a text is sent.
const PIECE: usize = 65_536;

/// A text, where it is wanted. An `Err` is the writer's.
pub fn write_wanted<W: Write>(out: &mut W, text: &[u8], wanted: bool) -> io::Result<()>
    ensures { Writes W.Write out.old out.new (text_wanted wanted text.now) result }
{
    if wanted {
        write_contents(out, text)
    } else {
        Ok(())
    }
}

/// A sum in 32 hexadecimal digits, in lower case.
pub fn hex_of(sum: [u8; 16]) -> [u8; 32]
    ensures { result ≡ encode_lower sum }
{
    let mut digits = [0; 32];
    let written = hex::encode_to_slice(sum.as_slice(), &mut digits);
    written.unwrap();
    digits
}

// A text in its pieces, then an empty string, and that it is done.
fn write_contents<W: Write>(out: &mut W, text: &[u8]) -> io::Result<()>
    ensures { Writes W.Write out.old out.new (text_bytes text.now) result }
{
    write_pieces(out, text)?;
    write_text(out, b"")?;
    write_done(out)
}

// A text in strings.
fn write_pieces<W: Write>(out: &mut W, text: &[u8]) -> io::Result<()>
    ensures { Writes W.Write out.old out.new (strings text.now) result }
{
    let mut rest = text;
    while rest.len() > 0 {
        let (part, behind) = rest.split_at(rest.len().min(PIECE));
        write_text(out, part)?;
        rest = behind;
    }
    Ok(())
}
