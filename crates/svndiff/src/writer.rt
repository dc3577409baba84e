//! The one spelling that is written: windows of 65,536 bytes, the last of what is left, each with one instruction.
//!
//! Each `Err` is the writer's own; then some of the bytes may have been written.

ghost use Rattle.std.specs.Prelude.{◌≡◌, ◌≤◌, ◌<◌, ◌++◌, ℕ, List, length, OnOk};
ghost use Rattle.std.specs.Io.KnownBytes.{Appends};
ghost use Rattle.svndiff.specs.Spelling.{groups, new_data, window, windows, head, spelled};

use std::io;
use std::io::Write;

/// The most bytes of the text in one window: 64 KiB.
pub const PIECE: usize = 65_536;

/// Writes the four bytes in front of all windows: `SVN` and 0.
pub fn write_head<W: Write>(out: &mut W) -> io::Result<()>
    ensures head { OnOk result (Appends (W.contents out.old) (W.contents out.new) head) }
{
    out.write_all(b"SVN\x00")
}

/// Writes a part of a text in windows; none for no bytes.
pub fn write_windows<W: Write>(out: &mut W, text: &[u8]) -> io::Result<()>
    ensures windows { OnOk result (Appends (W.contents out.old) (W.contents out.new) (windows text.now)) }
{
    let mut rest = text;
    while rest.len() > 0 {
        let (piece, behind) = rest.split_at(rest.len().min(PIECE));
        write_window(out, piece)?;
        rest = behind;
    }
    Ok(())
}

/// Writes a whole text: the head and its windows. What it writes is read as that text again.
pub fn write_text<W: Write>(out: &mut W, text: &[u8]) -> io::Result<()>
    ensures spelled { OnOk result (Appends (W.contents out.old) (W.contents out.new) (spelled text.now)) }
{
    write_head(out)?;
    write_windows(out, text)
}

/// A window of so much new data.
pub fn write_window<W: Write>(out: &mut W, bytes: &[u8]) -> io::Result<()>
    requires { length bytes.now ≤ 65536 }
    ensures { OnOk result (Appends (W.contents out.old) (W.contents out.new) (window bytes.now)) }
{
    let n = bytes.len() as u32;
    out.write_all(&[0, 0])?;
    write_number(out, n)?;
    write_number(out, instruction_size(n))?;
    write_number(out, n)?;
    write_instruction(out, n)?;
    out.write_all(bytes)
}

/// How many bytes a window of so much new data has.
pub fn window_size(n: u32) -> u32
    requires { n ≤ 65536 }
    ensures { (new : List ℕ) → length new ≡ n → result ≡ length (window new) }
{
    2 + 2 * number_size(n) + number_size(instruction_size(n)) + instruction_size(n) + n
}

// How many groups of seven bits a number has.
fn number_size(n: u32) -> u32
    requires { n < 2097152 }
    ensures size { result ≡ length (groups n) }
    ensures small { result ≤ 3 }
{
    match n {
        0..128 => 1,
        128..16384 => 2,
        _ => 3,
    }
}

// How many bytes the instruction for so much new data has.
fn instruction_size(n: u32) -> u32
    ensures { result ≡ length (new_data n) }
{
    match n {
        0..64 => 1,
        64..128 => 2,
        128..16384 => 3,
        _ => 4,
    }
}

// The instruction for so much new data.
fn write_instruction<W: Write>(out: &mut W, n: u32) -> io::Result<()>
    requires { n < 2097152 }
    ensures { OnOk result (Appends (W.contents out.old) (W.contents out.new) (new_data n)) }
{
    if n < 64 {
        return out.write_all(&[128 + n as u8]);
    }
    out.write_all(&[128])?;
    write_number(out, n)
}

// A number in groups of seven bits.
fn write_number<W: Write>(out: &mut W, n: u32) -> io::Result<()>
    requires { n < 2097152 }
    ensures { OnOk result (Appends (W.contents out.old) (W.contents out.new) (groups n)) }
{
    let last = (n % 128) as u8;
    if n < 128 {
        return out.write_all(&[last]);
    }
    if n < 16384 {
        return out.write_all(&[128 + (n / 128) as u8, last]);
    }
    out.write_all(&[128 + (n / 16384) as u8, 128 + (n / 128 % 128) as u8, last])
}
