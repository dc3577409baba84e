//! Laws of commands and answers, over all items and all values. Each is proved as the contract of a function that does
//! nothing. One of a value takes it: what its type keeps, as that its path is one, is then known.

ghost use Rattle.std.specs.Prelude.{◌≡◌, map, Ok};
ghost use Rattle.node_base.specs.PathText.{path_read, path_text, name_read};
ghost use Rattle.node_base.specs.Props.{prop_name_read};
ghost use Rattle.ra_wire.specs.Answers.{dirent_as};
ghost use Rattle.ra_wire.specs.Commands.{command_as};
ghost use Rattle.ra_wire.specs.Laws.{FormsAreRead, OneCommand, UnknownIsTold, OtherReplayIsTold, PrototypesAreRead};
ghost use Rattle.ra_wire.specs.ReadAgain.{OpeningsAreReadAgain, AnswersAreReadAgain, IsReadAgain, IsEntryReadAgain};
ghost use Rattle.ra_wire.specs.ReadAgain.{AreEntriesReadAgain, ArePropsReadAgain, IsDirReadAgain};

use crate::command::Command;
use crate::dirent::Dirent;
use node_base::{NodeName, NodePath, PropName, Props};

/// An item that the table of commands has for a command is read as that command.
pub fn forms_are_read()
    ensures { FormsAreRead }
{}

/// An item is one command at most.
pub fn one_command()
    ensures { OneCommand }
{}

/// A command of another name is refused as such, whatever its parameters are.
pub fn unknown_is_told()
    ensures { UnknownIsTold }
{}

/// A replay against another revision than 0, or without texts, is refused as such.
pub fn other_replay_is_told()
    ensures { OtherReplayIsTold }
{}

/// A value of an opening or an answer is read exactly where the table of prototypes has it.
pub fn prototypes_are_read()
    ensures { PrototypesAreRead }
{}

/// What the two sides write in an opening is read again.
pub fn openings_are_read_again()
    ensures { OpeningsAreReadAgain }
{}

/// The answers that are written are read again.
pub fn answers_are_read_again()
    ensures { AnswersAreReadAgain }
{}

/// A command that is written is read again as the same one.
pub fn command_is_read_again(command: &Command)
    ensures { IsReadAgain (command_as command.now) }
{
    match command {
        Command::LatestRev => {}
        Command::CheckPath(path, _) => path_is_kept(path),
        Command::GetFile(path, _, _, _) => path_is_kept(path),
        Command::GetDir(path, _, _, _) => path_is_kept(path),
        Command::RevProplist(_) => {}
        Command::RevProp(_, name) => prop_name_is_kept(name),
        Command::ChangeProp(_, name, _, _) => prop_name_is_kept(name),
        Command::Replay(_) => {}
        Command::ReplayRange(_, _) => {}
    }
}

/// An entry of a directory that is written is read again as the same one.
pub fn entry_is_read_again(entry: &Dirent)
    ensures { IsEntryReadAgain (dirent_as entry.now) }
{
    node_name_is_kept(&entry.name)
}

/// Entries that are written one after another are read again as the same ones.
pub fn entries_are_read_again(entries: &[Dirent])
    ensures { AreEntriesReadAgain (map dirent_as entries.now) }
{
    let Some((first, others)) = entries.split_first() else {
        return;
    };
    entry_is_read_again(first);
    entries_are_read_again(others)
}

/// Properties that are written are read again as the same ones: in an answer, in front of an edit, and of a file where
/// they are wanted. Of a file for which they aren't none are read.
pub fn props_are_read_again(props: &Props)
    ensures { ArePropsReadAgain props.now }
{
    let _entries = props.entries();
}

/// What is written of a directory is read again: its revision, its properties where they are wanted, and its entries.
pub fn dir_is_read_again(props: &Props, entries: &[Dirent])
    ensures { IsDirReadAgain props.now (map dirent_as entries.now) }
{
    let _entries = props.entries();
    entries_are_read_again(entries)
}

// A path is read from its own text.
fn path_is_kept(path: &NodePath)
    ensures { path_read (path_text path.now) ≡ Ok path.now }
{
    let _names = path.names();
}

// A property's name is read from its own text.
fn prop_name_is_kept(name: &PropName)
    ensures { prop_name_read name.now ≡ Ok name.now }
{
    let _len = name.len();
}

// The name of a file or a directory is read from its own text.
fn node_name_is_kept(name: &NodeName)
    ensures { name_read name.now ≡ Ok name.now }
{
    let _text = name.as_str();
}
