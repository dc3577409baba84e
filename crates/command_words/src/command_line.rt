//! The command line.
ghost use Rattle.std.specs.Prelude.{◌≡◌, ◌≤◌, ◌++◌, ℕ, List, [], Option, IfNone, IfOk, IfErr, IfSome, Some, None, map};
ghost use Rattle.std.specs.Prelude.{false, true, IsTrue, ◌↔◌, string_bytes, codes};
ghost use Rattle.std.specs.Option.{option_map};
ghost use Rattle.clap.specs.Faults.{fault_of};
ghost use Rattle.clap.specs.Kinds.{FailsBy};
ghost use Rattle.clap.specs.Values.{kind_of};
ghost use Rattle.clap.specs.Words.{Row, app_of, first_of, found_of, rows_of, subcommand_of};
ghost use Rattle.clap.specs.Words.{subcommand_rows_of};
ghost use Rattle.clap.specs.declared.builder.command.Command.TheViews.{out-Command as fields_of};
ghost use Rattle.command_words.specs.Lines.{HasNoLineFeed, IsLineOf, first_lines, help_of, without_label};
ghost use Rattle.command_words.specs.Terminal.{HasNoControl};
ghost use Rattle.command_words.specs.Usages.{IsRefusedAt, IsSyncRefused, IsTimeoutTold, IsTold, IsUsageAt, IsUsageOf};
ghost use Rattle.command_words.specs.Values.{HasFolders, HasReturn, HasValue, IsCommandOf, IsTokenOf, SpellsMicros};
ghost use Rattle.command_words.specs.Values.{HasNumber, HasServiceOf, HasTaskOf, IsPlannedOf, IsRangeGiven, SpellsRange};
ghost use Rattle.command_words.specs.Values.{HasSource, IsTimeoutOf, SpellsServer, SpellsUpTo, identity_read, is_given, is_on_server};
ghost use Rattle.command_words.specs.Values.{server_url};
ghost use Rattle.command_words.specs.Words.{archive_app, mirror_apps, svnfleet_app, with_apps, word_of_task};
ghost use Rattle.sync_core.specs.Tokens.{is_token};
ghost use Rattle.node_base.specs.Numbers.{rev_read};
ghost use Rattle.repo_core.specs.Dates.{IsMoment};
ghost use Rattle.store_engines.specs.Ranges.{first_in, last_in};

use crate::builder::{bare, with_commands};
use crate::fleet_named::fleet_named;
use crate::fleet_words::Fleet;
use crate::help::help_of;
use crate::root_url::root_url_named;
use crate::table::{ARCHIVE, MIRRORS};
use crate::terminal::line_of;
use clap::error::ErrorKind;
use clap::{ArgMatches, Error};
use node_base::{RevNo, read_decimal};
use repo_core::Moment;
use std::alloc::{AllocError, Global};
use store_engines::RevRange;
use sync_core::Token;
use uuid::Uuid;

/// What the program is told to do.
#[derive(Drop)]
pub enum Command {
    /// Print the newest tree of a dump. Texts that it gives as deltas are taken where that is asked for.
    List {
        deltas: bool,
    },
    /// Write a dump in its canonical spelling. Texts that it gives as deltas are taken where that is asked for.
    Canon {
        deltas: bool,
    },
    /// Begin a repository in a folder.
    Create {
        folder: String,
        identity: Uuid,
    },
    /// Load a dump into a folder's repository. Texts that it gives as deltas are taken where that is asked for.
    Load {
        folder: String,
        deltas: bool,
    },
    /// Dump a folder's repository, or a range of its revisions.
    Dump {
        folder: String,
        range: Option<RevRange>,
    },
    /// Print the number of the newest revision of a folder's repository.
    Head {
        folder: String,
    },
    /// Commit a directory to a folder's repository.
    MakeDir {
        folder: String,
        path: String,
        message: String,
        moment: Moment,
    },
    /// Give the entries of a folder's repository their sums.
    Upgrade {
        folder: String,
    },
    /// Make a folder's repository the mirror of another folder's.
    Initialize {
        mirror: String,
        source: String,
    },
    /// Bring a mirror up to its source, under a job's token, over a lock that stands where it is to steal.
    Synchronize {
        mirror: String,
        source: String,
        token: Token,
        steal: bool,
    },
    /// Copy the properties of a range of revisions to a mirror again, under a job's token.
    CopyRevprops {
        mirror: String,
        source: String,
        token: Token,
        range: RevRange,
    },
    /// Tell how a mirror stands.
    Info {
        mirror: String,
    },
}

/// The seconds that a peer may say nothing, where the words don't say it: ten minutes. A client that works between two
/// commands, and a server that works for an answer, are given that long.
pub const TIMEOUT_SECONDS: u16 = 600;

/// The most that words may say: twelve hours.
pub const MOST_TIMEOUT_SECONDS: u16 = 43_200;

/// A folder's repository that is to be served on a port of 127.0.0.1, over so many connections.
#[derive(Drop)]
pub struct Service {
    /// The folder of the repository.
    pub folder: String,
    /// The port, from 1 to 65535.
    pub port: u16,
    /// The number of connections, from 1 to 1024.
    pub connections: u16,
    /// The seconds that a client may say nothing, and read nothing, from 1 to 43200.
    pub seconds: u16,
    /// The URL that clients are told as the repository's root, where it isn't that of the port.
    pub root_url: Option<String>,
    /// Whether clients that read are answered, and not those that copy the repository.
    pub browse: bool,
}

/// What is done over a mirror and its source.
#[derive(Drop)]
pub enum Task {
    /// Make it the mirror of the source.
    Initialize,
    /// Bring it up to the source, under a job's token, over a lock that stands where it is to steal.
    Synchronize { token: Token, steal: bool },
    /// Copy the properties of a range of revisions again, under a job's token.
    CopyRevprops { token: Token, range: RevRange },
}

/// What is to be done over a mirror whose source is on a server, on a port of 127.0.0.1.
#[derive(Drop)]
pub struct Pull {
    /// The folder of the mirror.
    pub mirror: String,
    /// The source's URL as it was given, `svn://127.0.0.1:P/`.
    pub url: String,
    /// The port, from 1 to 65535.
    pub port: u16,
    /// The seconds that the server may say nothing, and read nothing, from 1 to 43200.
    pub seconds: u16,
    /// Whether the server sends texts as differences.
    pub deltas: bool,
    /// What is to be done.
    pub task: Task,
}

/// What words ask for.
#[derive(Drop)]
pub enum Planned {
    /// A command, which ends by itself.
    Run(Command),
    /// A server.
    Serve(Service),
    /// Mirrors that are brought up at once.
    Fleet(Fleet),
    /// A command over a mirror whose source is on a server.
    Pull(Pull),
}

// Where a mirror's source is.
#[derive(Drop)]
enum Place {
    // In a folder.
    Folder(String),
    // On a server: its URL, the port in that, the seconds that it may say nothing, and whether it sends texts as
    // differences.
    Server {
        url: String,
        port: u16,
        seconds: u16,
        deltas: bool,
    },
}

/// Why the words name no command.
#[derive(Drop)]
pub enum Usage {
    /// Help or the version was asked for: the text for standard output.
    Shown(String),
    /// The words are wrong: what is wrong with them.
    Wrong(String),
    /// There was no memory to tell.
    OutOfMemory,
}

impl From<AllocError> for Usage {
    ghost use Rattle.std.specs.Prelude.{◌≡◌};
    ghost use Rattle.command_words.specs.declared.command_line.Usage.TheVariants.{OutOfMemory};

    ghost from_gives = { λ _ e. e ≡ OutOfMemory };

    fn from(_error: AllocError) -> Usage {
        Usage::OutOfMemory
    }
}

/// The command or the server that the words name, the program's name first, with the values that they give it. Usage
/// where they name none: help or the version only where it was asked for, and else what is wrong, in the words or in the value of an
/// identity, a range, a moment, a message, a source, a port, a root URL, a number of connections or of seconds, in one line
/// without control characters that names the help of the command at hand.
pub fn plan(alloc: Global, words: &[String]) -> Result<Planned, Usage>
    ensures named { IfOk result (IsPlannedOf (subcommand_of svnfleet_app (map string_bytes words.now))) }
    ensures faultless { IfOk result (λ _. fault_of svnfleet_app (map string_bytes words.now) ≡ []) }
    ensures usage { IfErr result (IsUsageAt (help_of (map string_bytes words.now))
        (fault_of svnfleet_app (map string_bytes words.now)) (subcommand_of svnfleet_app
        (map string_bytes words.now))) }
{
    match matches_of(alloc, words) {
        Ok(matches) => asked(alloc, &matches),
        Err(error) => Err(usage_of(alloc, words, &error)),
    }
}

// What clap reads in the words.
fn matches_of<'a>(alloc: Global, words: &'a [String]) -> Result<ArgMatches<'a>, Error>
    ensures found { IfOk result (λ m. subcommand_rows_of m ≡ subcommand_of svnfleet_app (map string_bytes words.now)) }
    ensures kinds { FailsBy (fault_of svnfleet_app (map string_bytes words.now)) result }
{
    let program = svnfleet(alloc)?;
    program.try_get_matches_from(words)
}

// The program and its commands.
fn svnfleet<'a>(alloc: Global) -> Result<clap::Command<'a>, AllocError>
    ensures app { IfOk result (λ c. app_of c ≡ svnfleet_app) }
    ensures local { IfOk result (λ c. (fields_of c).has_globals ≡ false) }
{
    let over_archives = over_archives(alloc)?;
    with_mirrors(alloc, over_archives)
}

// The program with its commands over a dump or one repository.
fn over_archives<'a>(alloc: Global) -> Result<clap::Command<'a>, AllocError>
    ensures app { IfOk result (λ c. app_of c ≡ archive_app) }
    ensures local { IfOk result (λ c. (fields_of c).has_globals ≡ false) }
{
    with_commands(alloc, bare(alloc), ARCHIVE)
}

// A program with those over mirrors, and what serves, besides.
fn with_mirrors<'a>(
    alloc: Global,
    program: clap::Command<'a>,
) -> Result<clap::Command<'a>, AllocError>
    ensures app { IfOk result (λ c. app_of c ≡ with_apps (app_of program.entry) mirror_apps) }
    ensures local { (fields_of program.entry).has_globals ≡ false → IfOk result (λ c. (fields_of c).has_globals ≡ false) }
{
    with_commands(alloc, program, MIRRORS)
}

// What a subcommand's name and its values say.
fn asked(alloc: Global, matches: &ArgMatches<'_>) -> Result<Planned, Usage>
    ensures named { IfOk result (IsPlannedOf (subcommand_rows_of matches.now)) }
    ensures usage { IfErr result (IsRefusedAt (subcommand_rows_of matches.now)) }
{
    match entered(matches) {
        Some(("serve", given)) => match serve_named(alloc, given) {
            Ok(service) => Ok(Planned::Serve(service)),
            Err(usage) => Err(usage),
        },
        Some(("fleet", given)) => match fleet_named(alloc, given) {
            Ok(fleet) => Ok(Planned::Fleet(fleet)),
            Err(usage) => Err(usage),
        },
        Some(("initialize", given)) => initialize_named(alloc, given),
        Some(("synchronize", given)) => synchronize_named(alloc, given),
        Some(("copy-revprops", given)) => copy_revprops_named(alloc, given),
        _ => match named(alloc, matches) {
            Ok(command) => Ok(Planned::Run(command)),
            Err(usage) => Err(usage),
        },
    }
}

// The command that a subcommand's name and its values say, but for those over a mirror and its source.
fn named(alloc: Global, matches: &ArgMatches<'_>) -> Result<Command, Usage>
    ensures named { IfOk result (IsCommandOf (subcommand_rows_of matches.now)) }
    ensures usage { IfErr result (IsRefusedAt (subcommand_rows_of matches.now)) }
{
    match entered(matches) {
        Some(("list", given)) => Ok(list_named(given)),
        Some(("canon", given)) => Ok(canon_named(given)),
        Some(("create", given)) => create_named(alloc, given),
        Some(("load", given)) => load_named(alloc, given),
        Some(("dump", given)) => dump_named(alloc, given),
        Some(("head", given)) => head_named(alloc, given),
        Some(("mkdir", given)) => mkdir_named(alloc, given),
        Some(("upgrade", given)) => upgrade_named(alloc, given),
        Some(("info", given)) => info_named(alloc, given),
        _ => Err(Usage::OutOfMemory),
    }
}

// The subcommand's name and its values.
fn entered<'a, 'b>(matches: &'b ArgMatches<'a>) -> Option<(&'a str, &'b ArgMatches<'a>)>
    ensures { option_map (λ p. (p.0.now, rows_of (found_of p.1.now))) result ≡ subcommand_rows_of matches.now }
{
    matches.subcommand()
}

// A copy of the value of that name, which clap has seen to be there.
pub(crate) fn text(alloc: Global, given: &ArgMatches<'_>, name: &str) -> Result<String, Usage>
    ensures value { IfOk result (λ s. HasValue (rows_of (found_of given.now)) name.now (string_bytes s)) }
    ensures memory { IfErr result (λ u. u ≡ Usage.OutOfMemory) }
{
    match value(given, name) {
        Some(text) => Ok(String::from_str(alloc, text)?),
        None => Err(Usage::OutOfMemory),
    }
}

// The value of that name, where there is one.
pub(crate) fn value<'a>(given: &ArgMatches<'a>, name: &str) -> Option<&'a str>
    ensures { option_map (λ s. s.now) result ≡ first_of name.now (rows_of (found_of given.now)) }
{
    given.get_str(name)
}

// What is wrong with a value, in a line.
pub(crate) fn wrong(alloc: Global, help: &str, value: &str, wanted: &str) -> Usage
    ensures { IsTold help.now value.now wanted.now result }
{
    let Ok(wrong) = format!(in alloc; "{value:?} is not {wanted}") else {
        return Usage::OutOfMemory;
    };
    match line_of(alloc, help, wrong.as_str()) {
        Ok(line) => Usage::Wrong(line),
        Err(_) => Usage::OutOfMemory,
    }
}

fn list_named(given: &ArgMatches<'_>) -> Command
    ensures { IsCommandOf (Some (codes "list", rows_of (found_of given.now))) result }
{
    let deltas = is_given(given, "deltas");
    Command::List { deltas }
}

fn canon_named(given: &ArgMatches<'_>) -> Command
    ensures { IsCommandOf (Some (codes "canon", rows_of (found_of given.now))) result }
{
    let deltas = is_given(given, "deltas");
    Command::Canon { deltas }
}

fn create_named(alloc: Global, given: &ArgMatches<'_>) -> Result<Command, Usage>
    ensures named { IfOk result (IsCommandOf (Some (codes "create", rows_of (found_of given.now)))) }
    ensures usage { IfErr result (IsRefusedAt (Some (codes "create", rows_of (found_of given.now)))) }
{
    let value = text(alloc, given, "uuid")?;
    match identity_of(value.as_str()) {
        Some(identity) => Ok(Command::Create {
            folder: text(alloc, given, "DIR")?,
            identity,
        }),
        None => Err(wrong(
            alloc,
            "svnfleet create",
            value.as_str(),
            "a UUID of the form 8-4-4-4-12 in hexadecimal digits",
        )),
    }
}

fn load_named(alloc: Global, given: &ArgMatches<'_>) -> Result<Command, Usage>
    ensures named { IfOk result (IsCommandOf (Some (codes "load", rows_of (found_of given.now)))) }
    ensures usage { IfErr result (IsRefusedAt (Some (codes "load", rows_of (found_of given.now)))) }
{
    Ok(Command::Load {
        folder: text(alloc, given, "DIR")?,
        deltas: is_given(given, "deltas"),
    })
}

fn dump_named(alloc: Global, given: &ArgMatches<'_>) -> Result<Command, Usage>
    ensures named { IfOk result (IsCommandOf (Some (codes "dump", rows_of (found_of given.now)))) }
    ensures usage { IfErr result (IsRefusedAt (Some (codes "dump", rows_of (found_of given.now)))) }
{
    let folder = text(alloc, given, "DIR")?;
    let Some(value) = value(given, "revisions") else {
        return Ok(Command::Dump {
            folder,
            range: None,
        });
    };
    match range_of(value) {
        Some(range) => Ok(Command::Dump {
            folder,
            range: Some(range),
        }),
        None => Err(wrong(
            alloc,
            "svnfleet dump",
            value,
            "a range LO:HI of revisions from 0 to 65535, LO not above HI, or N:N for one revision",
        )),
    }
}

fn head_named(alloc: Global, given: &ArgMatches<'_>) -> Result<Command, Usage>
    ensures named { IfOk result (IsCommandOf (Some (codes "head", rows_of (found_of given.now)))) }
    ensures usage { IfErr result (IsRefusedAt (Some (codes "head", rows_of (found_of given.now)))) }
{
    Ok(Command::Head {
        folder: text(alloc, given, "DIR")?,
    })
}

fn mkdir_named(alloc: Global, given: &ArgMatches<'_>) -> Result<Command, Usage>
    ensures named { IfOk result (IsCommandOf (Some (codes "mkdir", rows_of (found_of given.now)))) }
    ensures usage { IfErr result (IsRefusedAt (Some (codes "mkdir", rows_of (found_of given.now)))) }
{
    let value = text(alloc, given, "moment")?;
    match moment_of(value.as_str()) {
        Some(moment) => Ok(Command::MakeDir {
            folder: text(alloc, given, "DIR")?,
            path: text(alloc, given, "PATH")?,
            message: message(alloc, given)?,
            moment,
        }),
        None => Err(wrong(
            alloc,
            "svnfleet mkdir",
            value.as_str(),
            "a number of microseconds from 0 to 4102444799999999",
        )),
    }
}

fn upgrade_named(alloc: Global, given: &ArgMatches<'_>) -> Result<Command, Usage>
    ensures named { IfOk result (IsCommandOf (Some (codes "upgrade", rows_of (found_of given.now)))) }
    ensures usage { IfErr result (IsRefusedAt (Some (codes "upgrade", rows_of (found_of given.now)))) }
{
    Ok(Command::Upgrade {
        folder: text(alloc, given, "DIR")?,
    })
}

fn initialize_named(alloc: Global, given: &ArgMatches<'_>) -> Result<Planned, Usage>
    ensures named { IfOk result (IsPlannedOf (Some (codes "initialize", rows_of (found_of given.now)))) }
    ensures usage { IfErr result (IsRefusedAt (Some (codes "initialize", rows_of (found_of given.now)))) }
{
    match places(alloc, "svnfleet initialize", given) {
        Ok((mirror, source)) => Ok(over(mirror, source, Task::Initialize)),
        Err(usage) => Err(usage),
    }
}

fn synchronize_named(alloc: Global, given: &ArgMatches<'_>) -> Result<Planned, Usage>
    ensures named { IfOk result (IsPlannedOf (Some (codes "synchronize", rows_of (found_of given.now)))) }
    ensures usage { IfErr result (IsRefusedAt (Some (codes "synchronize", rows_of (found_of given.now)))) }
{
    match places(alloc, "svnfleet synchronize", given) {
        Ok((mirror, source)) => match token_of(alloc, "svnfleet synchronize", given) {
            Ok(token) => {
                let steal = is_given(given, "steal-lock");
                Ok(over(mirror, source, Task::Synchronize { token, steal }))
            }
            Err(usage) => Err(usage),
        },
        Err(usage) => Err(usage),
    }
}

fn copy_revprops_named(alloc: Global, given: &ArgMatches<'_>) -> Result<Planned, Usage>
    ensures named { IfOk result (IsPlannedOf (Some (codes "copy-revprops", rows_of (found_of given.now)))) }
    ensures usage { IfErr result (IsRefusedAt (Some (codes "copy-revprops", rows_of (found_of given.now)))) }
{
    match places(alloc, "svnfleet copy-revprops", given) {
        Ok((mirror, source)) => match token_of(alloc, "svnfleet copy-revprops", given) {
            Ok(token) => match copied_range_of(alloc, given) {
                Ok(range) => Ok(over(mirror, source, Task::CopyRevprops { token, range })),
                Err(usage) => Err(usage),
            },
            Err(usage) => Err(usage),
        },
        Err(usage) => Err(usage),
    }
}

// What is planned to do a task over a mirror and its source.
fn over(mirror: String, source: Place, task: Task) -> Planned
    ensures { (rows : List Row) → HasSource rows (string_bytes mirror) source → HasTaskOf rows task
        → IsPlannedOf (Some (word_of_task task, rows)) result }
{
    match source {
        Place::Folder(source) => Planned::Run(over_folders_of(mirror, source, task)),
        Place::Server {
            url,
            port,
            seconds,
            deltas,
        } => Planned::Pull(Pull {
            mirror,
            url,
            port,
            seconds,
            deltas,
            task,
        }),
    }
}

// The command that does a task over a mirror and another folder.
fn over_folders_of(mirror: String, source: String, task: Task) -> Command
    ensures { (rows : List Row) → HasFolders rows (string_bytes mirror) (string_bytes source) → HasTaskOf rows task
        → IsCommandOf (Some (word_of_task task, rows)) result }
{
    match task {
        Task::Initialize => Command::Initialize { mirror, source },
        Task::Synchronize { token, steal } => Command::Synchronize {
            mirror,
            source,
            token,
            steal,
        },
        Task::CopyRevprops { token, range } => Command::CopyRevprops {
            mirror,
            source,
            token,
            range,
        },
    }
}

// The revisions whose properties are to be copied.
fn copied_range_of(alloc: Global, given: &ArgMatches<'_>) -> Result<RevRange, Usage>
    ensures range { IfOk result (IsRangeGiven (rows_of (found_of given.now))) }
    ensures usage { IfErr result (IsRefusedAt (Some (codes "copy-revprops", rows_of (found_of given.now)))) }
{
    let Some(value) = value(given, "revisions") else {
        return Err(Usage::OutOfMemory);
    };
    match range_of(value) {
        Some(range) => Ok(range),
        None => Err(wrong(
            alloc,
            "svnfleet copy-revprops",
            value,
            "a range LO:HI of revisions from 0 to 65535, LO not above HI, or N:N for one revision",
        )),
    }
}

fn info_named(alloc: Global, given: &ArgMatches<'_>) -> Result<Command, Usage>
    ensures named { IfOk result (IsCommandOf (Some (codes "info", rows_of (found_of given.now)))) }
    ensures usage { IfErr result (IsRefusedAt (Some (codes "info", rows_of (found_of given.now)))) }
{
    Ok(Command::Info {
        mirror: text(alloc, given, "MIRROR")?,
    })
}

fn serve_named(alloc: Global, given: &ArgMatches<'_>) -> Result<Service, Usage>
    ensures named { IfOk result (HasServiceOf (rows_of (found_of given.now))) }
    ensures usage { IfErr result (IsRefusedAt (Some (codes "serve", rows_of (found_of given.now)))) }
{
    match port_of(alloc, given) {
        Ok(port) => match connections_of(alloc, given) {
            Ok(connections) => match timeout_of(alloc, "svnfleet serve", given) {
                Ok(seconds) => match root_url_named(alloc, given) {
                    Ok(root_url) => Ok(Service {
                        folder: text(alloc, given, "DIR")?,
                        port,
                        connections,
                        seconds,
                        root_url,
                        browse: is_given(given, "browse"),
                    }),
                    Err(usage) => Err(usage),
                },
                Err(usage) => Err(usage),
            },
            Err(usage) => Err(usage),
        },
        Err(usage) => Err(usage),
    }
}

fn port_of(alloc: Global, given: &ArgMatches<'_>) -> Result<u16, Usage>
    ensures port { IfOk result (HasNumber (rows_of (found_of given.now)) (codes "port") 65535) }
    ensures usage { IfErr result (IsRefusedAt (Some (codes "serve", rows_of (found_of given.now)))) }
{
    let Some(value) = value(given, "port") else {
        return Err(Usage::OutOfMemory);
    };
    match up_to(value.as_bytes(), 65_535) {
        Some(port) => Ok(port),
        None => Err(wrong(alloc, "svnfleet serve", value, "a port from 1 to 65535")),
    }
}

fn connections_of(alloc: Global, given: &ArgMatches<'_>) -> Result<u16, Usage>
    ensures connections { IfOk result (HasNumber (rows_of (found_of given.now)) (codes "connections") 1024) }
    ensures usage { IfErr result (IsRefusedAt (Some (codes "serve", rows_of (found_of given.now)))) }
{
    let Some(value) = value(given, "connections") else {
        return Err(Usage::OutOfMemory);
    };
    match up_to(value.as_bytes(), 1024) {
        Some(connections) => Ok(connections),
        None => Err(wrong(
            alloc,
            "svnfleet serve",
            value,
            "a number of connections from 1 to 1024",
        )),
    }
}

// The seconds that a peer may say nothing.
fn timeout_of(alloc: Global, help: &str, given: &ArgMatches<'_>) -> Result<u16, Usage>
    ensures seconds { IfOk result (IsTimeoutOf (first_of (codes "timeout") (rows_of (found_of given.now)))) }
    ensures usage { IfErr result (IsTimeoutTold (rows_of (found_of given.now)) help.now) }
{
    let Some(value) = value(given, "timeout") else {
        return Ok(TIMEOUT_SECONDS);
    };
    match up_to(value.as_bytes(), MOST_TIMEOUT_SECONDS) {
        Some(seconds) => Ok(seconds),
        None => Err(wrong(alloc, help, value, "a number of seconds from 1 to 43200")),
    }
}

// The folder of a mirror, and where its source is: in another folder or on a server.
fn places(alloc: Global, help: &str, given: &ArgMatches<'_>) -> Result<(String, Place), Usage>
    ensures places { IfOk result (λ p. HasSource (rows_of (found_of given.now)) (string_bytes p.0) p.1) }
    ensures usage { IfErr result (IsSyncRefused (rows_of (found_of given.now)) help.now) }
{
    let seconds = match timeout_of(alloc, help, given) {
        Ok(seconds) => seconds,
        Err(usage) => return Err(usage),
    };
    let mirror = text(alloc, given, "MIRROR")?;
    let source = text(alloc, given, "SOURCE")?;
    if is_on_server(source.as_str()) {
        return match port_in(source.as_str()) {
            Some(port) => {
                let deltas = is_given(given, "deltas");
                Ok((mirror, server_at(source, port, seconds, deltas)))
            }
            None => Err(wrong(
                alloc,
                help,
                source.as_str(),
                "a folder or svn://127.0.0.1:P/ with a port P from 1 to 65535",
            )),
        };
    }
    if mirror.as_str() == source.as_str() {
        return Err(wrong(
            alloc,
            help,
            source.as_str(),
            "another folder than the mirror's",
        ));
    }
    Ok((mirror, Place::Folder(source)))
}

// A source on a server.
fn server_at(url: String, port: u16, seconds: u16, deltas: bool) -> Place
    ensures { result ≡ Place.Server url port seconds deltas }
{
    Place::Server {
        url,
        port,
        seconds,
        deltas,
    }
}

// Whether a source is one on a server.
fn is_on_server(source: &str) -> bool
    ensures { result ≡ is_on_server source.now }
{
    source.as_bytes().starts_with(b"svn://")
}

// The port in the URL of a server.
fn port_in(source: &str) -> Option<u16>
    ensures some { IfSome result (SpellsServer source.now) }
    ensures none { IfNone result ((n : ℕ) → SpellsServer source.now n → ⊥) }
{
    match digits_in(source) {
        Some(digits) => up_to(digits, 65_535),
        None => None,
    }
}

// What stands where the URL of a server has its port.
fn digits_in(source: &str) -> Option<&[u8]>
    ensures some { IfSome result (λ digits. source.now ≡ server_url digits.now) }
    ensures none { IfNone result ((digits : List ℕ) → source.now ≡ server_url digits → ⊥) }
{
    let rest = source.as_bytes().strip_prefix(b"svn://127.0.0.1:")?;
    rest.strip_suffix(b"/")
}

// The token that is given, or `job`.
fn token_of(alloc: Global, help: &str, given: &ArgMatches<'_>) -> Result<Token, Usage>
    ensures token { IfOk result (IsTokenOf (first_of (codes "token") (rows_of (found_of given.now)))) }
    ensures usage { IfErr result (IsSyncRefused (rows_of (found_of given.now)) help.now) }
{
    let Some(value) = value(given, "token") else {
        return default_token(alloc);
    };
    match Token::new(Vec::from_slice(alloc, value.as_bytes())?) {
        Some(token) => Ok(token),
        None => Err(wrong(
            alloc,
            help,
            value,
            "a token of 1 to 255 printable ASCII characters without blanks",
        )),
    }
}

fn default_token(alloc: Global) -> Result<Token, Usage>
    ensures token { IfOk result (λ t. t ≡ codes "job") }
    ensures memory { IfErr result (λ u. u ≡ Usage.OutOfMemory) }
{
    match Token::new(Vec::from_slice(alloc, b"job")?) {
        Some(token) => Ok(token),
        None => Err(Usage::OutOfMemory),
    }
}

// Whether an option without a value is given.
fn is_given(given: &ArgMatches<'_>, name: &str) -> bool
    ensures { result ≡ is_given (rows_of (found_of given.now)) name.now }
{
    match value(given, name) {
        Some(text) => text == "true",
        None => false,
    }
}

// The message that a directory is committed with. Subversion takes none with a carriage return.
fn message(alloc: Global, given: &ArgMatches<'_>) -> Result<String, Usage>
    ensures value { IfOk result (λ s. HasValue (rows_of (found_of given.now)) (codes "message") (string_bytes s)) }
    ensures taken { IfOk result (λ s. ¬ HasReturn (string_bytes s)) }
    ensures usage { IfErr result (IsRefusedAt (Some (codes "mkdir", rows_of (found_of given.now)))) }
{
    let message = text(alloc, given, "message")?;
    if has_return(message.as_str()) {
        return Err(wrong(
            alloc,
            "svnfleet mkdir",
            message.as_str(),
            "a message without carriage returns",
        ));
    }
    Ok(message)
}

fn has_return(text: &str) -> bool
    ensures { IsTrue result ↔ HasReturn text.now }
{
    text.as_bytes().contains(&b'\r')
}

// The identity that 36 bytes spell: 8-4-4-4-12 hexadecimal digits.
fn identity_of(value: &str) -> Option<Uuid>
    ensures { result ≡ identity_read value.now }
{
    if value.len() != 36 {
        return None;
    }
    Uuid::try_parse_ascii(value.as_bytes()).ok()
}

// The range that two numbers with a colon between them say.
fn range_of(value: &str) -> Option<RevRange>
    ensures some { IfSome result (λ r. SpellsRange value.now (first_in r) (last_in r)) }
    ensures none { IfNone result ((lo hi : ℕ) → SpellsRange value.now lo hi → ⊥) }
{
    match value.split_once(':') {
        Some((low, high)) => range_between(low, high),
        None => None,
    }
}

fn range_between(low: &str, high: &str) -> Option<RevRange>
    ensures some { IfSome result (λ r. (rev_read low.now ≡ Some (first_in r)) × (rev_read high.now ≡ Some (last_in r))
        × (first_in r ≤ last_in r)) }
    ensures none { IfNone result ((lo hi : ℕ) → rev_read low.now ≡ Some lo → rev_read high.now ≡ Some hi → lo ≤ hi
        → ⊥) }
{
    let first = RevNo::parse(low.as_bytes())?;
    let last = RevNo::parse(high.as_bytes())?;
    RevRange::new(first, last)
}

// The moment that so many microseconds are after 1970 began.
fn moment_of(value: &str) -> Option<Moment>
    ensures some { IfSome result (λ at. (micros : ℕ) × SpellsMicros value.now micros × IsMoment micros at) }
    ensures none { IfNone result ((micros : ℕ) → SpellsMicros value.now micros → ⊥) }
{
    Moment::from_micros(read_decimal(value.as_bytes())?)
}

// The number from 1 up to the most that decimal digits spell.
pub(crate) fn up_to(value: &[u8], most: u16) -> Option<u16>
    ensures some { IfSome result (SpellsUpTo most value.now) }
    ensures none { IfNone result ((n : ℕ) → SpellsUpTo most value.now n → ⊥) }
{
    let number = read_decimal(value)?;
    if number == 0 || number > u64::from(most) {
        return None;
    }
    u16::try_from(number).ok()
}

// What the program tells of an error that clap found in the words.
fn usage_of(alloc: Global, words: &[String], error: &Error) -> Usage
    ensures { IsUsageOf (help_of (map string_bytes words.now)) (kind_of error.now) result }
{
    if error.kind() == ErrorKind::OutOfMemory {
        return Usage::OutOfMemory;
    }
    let Ok(text) = error.to_string(alloc) else {
        return Usage::OutOfMemory;
    };
    if !error.use_stderr() {
        return Usage::Shown(text);
    }
    let Ok(help) = help_of(alloc, words) else {
        return Usage::OutOfMemory;
    };
    match one_line(alloc, help.as_str(), text.as_str()) {
        Ok(line) => Usage::Wrong(line),
        Err(_) => Usage::OutOfMemory,
    }
}

// What clap finds wrong, in a line: its first lines up to an empty one, which name what is missing.
fn one_line(alloc: Global, help: &str, text: &str) -> Result<String, AllocError>
    ensures told { IfOk result (λ line. IsLineOf help.now (without_label (first_lines text.now)) (string_bytes line)) }
    ensures clean { IfOk result (λ line. HasNoControl (string_bytes line)) }
    ensures one { IfOk result (λ line. HasNoLineFeed (string_bytes line)) }
{
    let joined = joined_lines(alloc, text)?;
    let wrong = without_label(joined.as_str());
    line_of(alloc, help, wrong)
}

// What stands behind the label `error: `, where there is one.
fn without_label(text: &str) -> &str
    ensures { result.now ≡ without_label text.now }
{
    match text.strip_prefix("error: ") {
        Some(rest) => rest,
        None => text,
    }
}

// The lines up to an empty one, with blanks between them.
fn joined_lines(alloc: Global, text: &str) -> Result<String, AllocError>
    ensures joined { IfOk result (λ s. string_bytes s ≡ first_lines text.now) }
    ensures one { IfOk result (λ s. HasNoLineFeed (string_bytes s)) }
{
    let mut joined = String::new(alloc);
    for line in text.lines() {
        let line = line.trim();
        if line.is_empty() {
            return Ok(joined);
        }
        if !joined.is_empty() {
            joined.push(' ')?;
        }
        joined.push_str(line)?;
    }
    Ok(joined)
}
