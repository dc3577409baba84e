//! What `clap` is told of the commands.
ghost use Rattle.std.specs.Prelude.{◌≡◌, IfOk, false};
ghost use Rattle.clap.specs.Words.{app_of, rule_of};
ghost use Rattle.clap.specs.declared.builder.command.Command.TheViews.{out-Command as fields_of};
ghost use Rattle.command_words.specs.Words.{bare_app, rule_of_word, subcommand_app, with_commands_app};

use crate::texts;
use crate::word::{Subcommand, Word, WordKind};
use clap::{Arg, ArgAction, Command};
use std::alloc::{AllocError, Global};

/// The program without a command, of which it wants one.
pub fn bare<'a>(alloc: Global) -> Command<'a>
    ensures app { app_of result ≡ bare_app }
    ensures local { (fields_of result).has_globals ≡ false }
{
    Command::new(alloc, "svnfleet")
        .version("0.1.0")
        .about(
            "Keeps, lists and rewrites the histories of Subversion repositories, as dumps of formats 2 and 3 say them",
        )
        .after_help(texts::PROGRAM)
        .subcommand_required(true)
}

/// A program with these commands behind its own. AllocError where there is no memory for them.
pub fn with_commands<'a>(
    alloc: Global,
    program: Command<'a>,
    commands: &[Subcommand<'a>],
) -> Result<Command<'a>, AllocError>
    ensures app { IfOk result (λ c. app_of c ≡ with_commands_app (app_of program.entry) commands.now) }
    ensures local { (fields_of program.entry).has_globals ≡ false → IfOk result (λ c. (fields_of c).has_globals ≡ false) }
{
    let mut program = program;
    for command in commands {
        program = program.subcommand(subcommand(alloc, command)?)?;
    }
    Ok(program)
}

// A command with its words.
fn subcommand<'a>(alloc: Global, command: &Subcommand<'a>) -> Result<Command<'a>, AllocError>
    ensures app { IfOk result (λ c. app_of c ≡ subcommand_app command.now) }
    ensures local { IfOk result (λ c. (fields_of c).has_globals ≡ false) }
{
    let mut whole = Command::new(alloc, command.name)
        .about(command.about)
        .after_help(command.after_help);
    for word in command.words {
        whole = whole.arg(arg(alloc, word))?;
    }
    Ok(whole)
}

// A word.
fn arg<'a>(alloc: Global, word: &Word<'a>) -> Arg<'a>
    ensures rule { rule_of result ≡ rule_of_word word.now }
    ensures local { result.global ≡ false }
{
    let arg = Arg::new(alloc, word.name).help(word.help);
    match word.kind {
        WordKind::Place => arg.required(true).action(ArgAction::Set),
        WordKind::Places => arg.required(true).action(ArgAction::Append),
        WordKind::Named(value) => arg
            .required(true)
            .action(ArgAction::Set)
            .long(word.name)
            .value_name(value),
        WordKind::Optional(value) => arg.action(ArgAction::Set).long(word.name).value_name(value),
        WordKind::Flag => arg.action(ArgAction::SetTrue).long(word.name),
        WordKind::Range { required } => arg
            .required(required)
            .short('r')
            .value_name("LO:HI")
            .action(ArgAction::Set),
    }
}
