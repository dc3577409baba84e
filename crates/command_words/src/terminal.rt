//! The line that is told of a mistake, as a terminal is given it.
ghost use Rattle.std.specs.Prelude.{◌≡◌, ◌++◌, IfOk, OnOk, encode_utf8_all, string_bytes};
ghost use Rattle.command_words.specs.Lines.{HasNoLineFeed, IsLineOf};
ghost use Rattle.command_words.specs.Terminal.{HasNoControl, shown, shown_char};

use std::alloc::{AllocError, Global};

/// The line on what is wrong, with the words whose help tells more.
pub fn line_of(alloc: Global, help: &str, wrong: &str) -> Result<String, AllocError>
    ensures told { IfOk result (λ line. IsLineOf help.now wrong.now (string_bytes line)) }
    ensures clean { IfOk result (λ line. HasNoControl (string_bytes line)) }
    ensures one { IfOk result (λ line. HasNoLineFeed (string_bytes line)) }
{
    let line = format!(in alloc; "svnfleet: {wrong} ({help} --help tells more)")?;
    shown(alloc, line.as_str())
}

// The text with each character that controls a terminal written as its escape, as `\u{1b}`.
fn shown(alloc: Global, text: &str) -> Result<String, AllocError>
    ensures text { IfOk result (λ s. string_bytes s ≡ shown text.now) }
    ensures clean { IfOk result (λ s. HasNoControl (string_bytes s)) }
    ensures one { IfOk result (λ s. HasNoLineFeed (string_bytes s)) }
{
    let mut shown = String::new(alloc);
    for c in text.chars() {
        push_shown(&mut shown, c)?;
    }
    Ok(shown)
}

// One character of it.
fn push_shown(shown: &mut String, c: char) -> Result<(), AllocError>
    ensures { OnOk result (string_bytes shown.new ≡ string_bytes shown.old ++ encode_utf8_all (shown_char c)) }
{
    if !c.is_control() {
        return shown.push(c);
    }
    for part in c.escape_default() {
        shown.push(part)?;
    }
    Ok(())
}
