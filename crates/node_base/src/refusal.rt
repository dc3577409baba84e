//! Refusals: every way in which a call says no, with its number and its text.
ghost use Rattle.std.specs.Prelude.{◌≡◌, ◌<◌, ◌++◌, false, Some, IfOk, codes, string_bytes};
ghost use Rattle.std.specs.Fmt.{DisplaysOnOk};
ghost use Rattle.std.specs.Option.{option_map};
ghost use Rattle.node_base.specs.Refusals.{fault_line, inconsistent_text, refusal_number, refusal_text, tells_more};

use crate::{RevNo, ShownToken, ToldNumber, texts};
use std::alloc::{AllocError, Global};
use std::fmt;

/// Why something was refused. Each has a number, which never changes, and a text of one line.
#[derive(Debug, Drop)]
pub enum Refusal {
    /// The first line of a dump isn't `SVN-fs-dump-format-version: 2`.
    BadVersion,
    /// A header block that is no record's.
    BadHeader,
    /// A value that is no number, or a revision above 65,535.
    BadNumber,
    /// The lengths of a record do not agree.
    BadLength,
    /// Bytes that are no property block of the announced length, or a name that is no property's.
    BadProps,
    /// A text whose MD5 isn't the one that was given with it.
    BadSum,
    /// The input ends too early.
    Truncated,
    /// Past a limit.
    TooLong,
    /// A text that is given as a delta.
    TextDelta,
    /// Bytes that spell no path, or a change that the root doesn't take.
    BadPath,
    /// Nothing is at the path.
    NoSuchPath,
    /// Something is at the path already.
    PathThere,
    /// A front of the path is a file.
    NotDir,
    /// The copy's source isn't there, or isn't earlier.
    NoSource,
    /// Changes of one path that can't be joined to one.
    OutOfOrder,
    /// A revision that isn't the next.
    WrongNumber,
    /// The kind isn't the node's, or a directory was given a text.
    KindMismatch,
    /// A revision above the head.
    NoSuchRevision,
    /// A conditional change of a property found another value.
    BaseMismatch,
    /// The head is the last revision that can be.
    Full,
    /// A change of a mirror that isn't its synchronisation.
    ReadOnly,
    /// A commit against an earlier revision than the head, which is told.
    Behind(RevNo),
    /// The device failed.
    DeviceFailed,
    /// A call after a failure that the value doesn't outlive.
    Failed,
    /// The journal's entry of that number is damaged.
    Damaged(u64),
    /// The folder has no repository.
    NoRepository,
    /// The folder has a repository already.
    ThereAlready,
    /// The journal can't grow.
    LogFull,
    /// A byte that no item has in its place.
    BadItem,
    /// Lists stand too deep in one another.
    TooDeep,
    /// A replay with a low water mark, or without texts.
    ReplayForm,
    /// Bytes that are no svndiff window.
    BadWindow,
    /// An svndiff window that copies.
    CopyWindow,
    /// A token of an editor command that stands for nothing.
    BadToken,
    /// A command that isn't served.
    UnknownCommand,
    /// A command or an answer of another shape.
    BadShape,
    /// Reading from a peer or writing to one failed.
    PeerFailed,
    /// The mirror isn't initialized.
    NotInitialised,
    /// The mirror is initialized already.
    AlreadyInitialised,
    /// The mirror has revisions and can't be initialized.
    NotEmpty,
    /// The sync lock is held by the job of that token.
    LockHeld(Vec<u8>),
    /// The holder of that token is running.
    HolderRunning(Vec<u8>),
    /// The source isn't the repository that the mirror was initialized from.
    WrongMaster,
    /// The mirror's properties of its synchronisation fit no shape in which it rests.
    Inconsistent {
        merged: ToldNumber,
        copying: ToldNumber,
        head: RevNo,
    },
    /// The mirror hasn't got that revision whole yet.
    NotYetCopied(RevNo),
    /// The caller doesn't hold the sync lock.
    NotHolder,
    /// The master refused, with that text.
    MasterFailed(String),
    /// By the mirror's numbers it isn't this call's turn, or an answer fits no question of a job.
    OutOfTurn,
    /// Memory ran out.
    OutOfMemory,
}

impl Refusal {
    /// The master's refusal, as a mirror's job tells it.
    pub fn master_failed(alloc: Global, inner: &Refusal) -> Result<Refusal, AllocError>
        ensures number { IfOk result (λ r. refusal_number r ≡ 60) }
        ensures text { IfOk result (λ r. refusal_text r ≡ codes "master: " ++ refusal_text inner.now) }
    {
        Ok(Refusal::MasterFailed(format!(in alloc; "{inner}")?))
    }

    /// What a mirror's job tells of a master that failed without a refusal of its own.
    pub fn master_refused(alloc: Global) -> Result<Refusal, AllocError>
        ensures number { IfOk result (λ r. refusal_number r ≡ 60) }
        ensures text { IfOk result (λ r. refusal_text r ≡ codes "master: refused") }
    {
        Ok(Refusal::MasterFailed(String::from_str(alloc, "refused")?))
    }

    /// The line that a program prints for it, with its line end.
    pub fn line(&self, alloc: Global) -> Result<String, AllocError>
        ensures { IfOk result (λ s. string_bytes s ≡ fault_line self.now) }
    {
        let number = self.number();
        format!(in alloc; "svnfleet: {number} {self}\n")
    }

    /// Its number.
    pub fn number(&self) -> u8
        ensures { result ≡ refusal_number self.now }
    {
        match self {
            Refusal::BadVersion => 1,
            Refusal::BadHeader => 2,
            Refusal::BadNumber => 3,
            Refusal::BadLength => 4,
            Refusal::BadProps => 5,
            Refusal::BadSum => 6,
            Refusal::Truncated => 7,
            Refusal::TooLong => 8,
            Refusal::TextDelta => 9,
            Refusal::BadPath => 10,
            Refusal::NoSuchPath => 11,
            Refusal::PathThere => 12,
            Refusal::NotDir => 13,
            Refusal::NoSource => 14,
            Refusal::OutOfOrder => 15,
            Refusal::WrongNumber => 16,
            Refusal::KindMismatch => 17,
            Refusal::NoSuchRevision => 21,
            Refusal::BaseMismatch => 22,
            Refusal::Full => 23,
            Refusal::ReadOnly => 24,
            Refusal::Behind(_) => 25,
            Refusal::DeviceFailed => 31,
            Refusal::Failed => 32,
            Refusal::Damaged(_) => 33,
            Refusal::NoRepository => 34,
            Refusal::ThereAlready => 35,
            Refusal::LogFull => 36,
            Refusal::BadItem => 41,
            Refusal::TooDeep => 42,
            Refusal::ReplayForm => 43,
            Refusal::BadWindow => 44,
            Refusal::CopyWindow => 45,
            Refusal::BadToken => 46,
            Refusal::UnknownCommand => 47,
            Refusal::BadShape => 48,
            Refusal::PeerFailed => 49,
            Refusal::NotInitialised => 51,
            Refusal::AlreadyInitialised => 52,
            Refusal::NotEmpty => 53,
            Refusal::LockHeld(_) => 54,
            Refusal::HolderRunning(_) => 55,
            Refusal::WrongMaster => 56,
            Refusal::Inconsistent { .. } => 57,
            Refusal::NotYetCopied(_) => 58,
            Refusal::NotHolder => 59,
            Refusal::MasterFailed(_) => 60,
            Refusal::OutOfTurn => 61,
            Refusal::OutOfMemory => 70,
        }
    }

    /// The text of a refusal that tells no more than that it is this one; of one that tells more, none.
    pub fn fixed_text(&self) -> &'static str
        ensures { tells_more self.now ≡ false → result.now ≡ refusal_text self.now }
    {
        match self {
            Refusal::BadVersion => texts::BAD_VERSION,
            Refusal::BadHeader => texts::BAD_HEADER,
            Refusal::BadNumber => texts::BAD_NUMBER,
            Refusal::BadLength => texts::BAD_LENGTH,
            Refusal::BadProps => texts::BAD_PROPS,
            Refusal::BadSum => texts::BAD_SUM,
            Refusal::Truncated => texts::TRUNCATED,
            Refusal::TooLong => texts::TOO_LONG,
            Refusal::TextDelta => texts::TEXT_DELTA,
            Refusal::BadPath => texts::BAD_PATH,
            Refusal::NoSuchPath => texts::NO_SUCH_PATH,
            Refusal::PathThere => texts::PATH_THERE,
            Refusal::NotDir => texts::NOT_DIR,
            Refusal::NoSource => texts::NO_SOURCE,
            Refusal::OutOfOrder => texts::OUT_OF_ORDER,
            Refusal::WrongNumber => texts::WRONG_NUMBER,
            Refusal::KindMismatch => texts::KIND_MISMATCH,
            Refusal::NoSuchRevision => texts::NO_SUCH_REVISION,
            Refusal::BaseMismatch => texts::BASE_MISMATCH,
            Refusal::Full => texts::FULL,
            Refusal::ReadOnly => texts::READ_ONLY,
            Refusal::DeviceFailed => texts::DEVICE_FAILED,
            Refusal::Failed => texts::FAILED,
            Refusal::NoRepository => texts::NO_REPOSITORY,
            Refusal::ThereAlready => texts::THERE_ALREADY,
            Refusal::LogFull => texts::LOG_FULL,
            Refusal::BadItem => texts::BAD_ITEM,
            Refusal::TooDeep => texts::TOO_DEEP,
            Refusal::ReplayForm => texts::REPLAY_FORM,
            Refusal::BadWindow => texts::BAD_WINDOW,
            Refusal::CopyWindow => texts::COPY_WINDOW,
            Refusal::BadToken => texts::BAD_TOKEN,
            Refusal::UnknownCommand => texts::UNKNOWN_COMMAND,
            Refusal::BadShape => texts::BAD_SHAPE,
            Refusal::PeerFailed => texts::PEER_FAILED,
            Refusal::NotInitialised => texts::NOT_INITIALISED,
            Refusal::AlreadyInitialised => texts::ALREADY_INITIALISED,
            Refusal::NotEmpty => texts::NOT_EMPTY,
            Refusal::WrongMaster => texts::WRONG_MASTER,
            Refusal::NotHolder => texts::NOT_HOLDER,
            Refusal::OutOfTurn => texts::OUT_OF_TURN,
            Refusal::OutOfMemory => texts::OUT_OF_MEMORY,
            _ => "",
        }
    }
}

impl fmt::Display for Refusal {
    ghost output = { λ r. Some (refusal_text r) };

    /// Its text, without a line end.
    fn fmt<W: fmt::Write>(&self, f: &mut fmt::Formatter<W>) -> fmt::Result {
        match self {
            Refusal::Behind(head) => write_told("the base is not the head ", head, "", f),
            Refusal::Damaged(entry) => write_told("entry ", entry, " is damaged", f),
            Refusal::LockHeld(token) => {
                write_told("the sync lock is held by ", &shown(token), "", f)
            }
            Refusal::HolderRunning(token) => {
                write_told("the holder ", &shown(token), " is running", f)
            }
            Refusal::Inconsistent {
                merged,
                copying,
                head,
            } => write_inconsistent(merged, copying, *head, f),
            Refusal::NotYetCopied(number) => {
                write_told("revision ", number, " is not copied yet", f)
            }
            Refusal::MasterFailed(text) => write_told("master: ", text, "", f),
            other => f.write_str(other.fixed_text()),
        }
    }
}

/// Writes what a refusal tells, between two texts.
fn write_told<T: fmt::Display, W: fmt::Write>(
    before: &str,
    told: &T,
    after: &str,
    f: &mut fmt::Formatter<W>,
) -> fmt::Result
    ensures { DisplaysOnOk W.write_str_gives f.old result (option_map (λ t.
        before.now ++ t ++ after.now) (T.output told.now)) f.new }
{
    write!(f, "{before}{told}{after}")
}

/// Writes that a mirror's properties of its synchronisation fit no shape in which it rests.
fn write_inconsistent<W: fmt::Write>(
    merged: &ToldNumber,
    copying: &ToldNumber,
    head: RevNo,
    f: &mut fmt::Formatter<W>,
) -> fmt::Result
    ensures { DisplaysOnOk W.write_str_gives f.old result (Some
        (inconsistent_text merged.now copying.now head)) f.new }
{
    write!(
        f,
        "inconsistent: merged {merged}, copying {copying}, head {head}"
    )
}

/// A token, to be printed.
fn shown(token: &Vec<u8>) -> ShownToken<'_>
    ensures { result.0.now ≡ token.now.items }
{
    ShownToken(token.as_slice())
}
