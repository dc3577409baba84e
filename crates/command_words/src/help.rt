//! Where help on the words is.
ghost use Rattle.std.specs.Prelude.{◌≡◌, [], get_or, bytes_eq, map, IfOk, string_bytes};
ghost use Rattle.std.specs.List.{list_any};
ghost use Rattle.command_words.specs.Lines.{commands, help_of};

use crate::table::{ARCHIVE, MIRRORS};
use crate::word::Subcommand;
use std::alloc::{AllocError, Global};

/// The words whose help tells more: those of a command where the first word, behind the program's name, names one, else
/// the program's name.
pub fn help_of(alloc: Global, words: &[String]) -> Result<String, AllocError>
    ensures { IfOk result (λ help. string_bytes help ≡ help_of (map string_bytes words.now)) }
{
    let word = first_word(words);
    if !is_command(word) {
        return String::from_str(alloc, "svnfleet");
    }
    format!(in alloc; "svnfleet {word}")
}

// The word behind the program's name; where there is none, one without a character.
fn first_word(words: &[String]) -> &str
    ensures { result.now ≡ get_or (map string_bytes words.now) 1 [] }
{
    match words.get(1) {
        Some(word) => word.as_str(),
        None => "",
    }
}

fn is_command(word: &str) -> bool
    ensures { result ≡ list_any (bytes_eq word.now) commands }
{
    is_named(ARCHIVE, word) || is_named(MIRRORS, word)
}

// Whether one of these commands is called so.
fn is_named(commands: &[Subcommand<'_>], word: &str) -> bool
    ensures { result ≡ list_any (λ command. bytes_eq word.now command.name.now) commands.now }
{
    match commands.split_first() {
        Some((first, rest)) => word == first.name || is_named(rest, word),
        None => false,
    }
}
