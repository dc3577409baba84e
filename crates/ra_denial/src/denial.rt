//! Why a command isn't answered.

ghost use Rattle.std.specs.Prelude.{◌≡◌};
ghost use Rattle.ra_denial.specs.Denials.{denial_number, denial_text};

use browse_wire::told::Refusal;

/// Why a command isn't answered. The numbers are Subversion's own, since its clients decide by them.
#[derive(Clone, Copy, Debug, PartialEq, Eq, Drop)]
pub enum Denial {
    /// A revision above the head.
    NoRevision,
    /// Nothing stands at the path.
    NoPath,
    /// A file stands where a directory is wanted.
    NotDir,
    /// A directory stands where a file is wanted.
    NotFile,
    /// What is no URL that a session can stand at.
    BadUrl,
    /// A URL of another root.
    OtherRoot,
    /// A command that these sessions don't answer.
    Unsupported,
    /// A command of another name.
    Unknown,
    /// An item of another shape.
    BadShape,
    /// A report that doesn't begin with its folder, or has a path where it has no directory.
    BadReport,
    /// A text that is no date as Subversion writes one.
    BadDate,
}

impl Denial {
    /// Subversion's number.
    pub fn number(self) -> u64
        ensures { result ≡ denial_number self }
    {
        match self {
            Denial::NoRevision => Refusal::NoSuchRevision.number(),
            Denial::NoPath => Refusal::NoSuchPath.number(),
            Denial::NotDir => 160_016,
            Denial::NotFile => 160_017,
            Denial::BadUrl => 170_000,
            Denial::OtherRoot => 170_000,
            Denial::Unsupported => Refusal::NotSupported.number(),
            Denial::Unknown => Refusal::UnknownCommand.number(),
            Denial::BadShape => 210_004,
            Denial::BadReport => 165_004,
            Denial::BadDate => 125_003,
        }
    }

    /// Its text.
    pub fn text(self) -> &'static [u8]
        ensures { result.now ≡ denial_text self }
    {
        match self {
            Denial::NoRevision => Refusal::NoSuchRevision.text(),
            Denial::NoPath => Refusal::NoSuchPath.text(),
            Denial::NotDir => b"not a directory",
            Denial::NotFile => b"not a file",
            Denial::BadUrl => b"not a URL of a session",
            Denial::OtherRoot => b"not the same repository",
            Denial::Unsupported => Refusal::NotSupported.text(),
            Denial::Unknown => Refusal::UnknownCommand.text(),
            Denial::BadShape => b"bad command shape",
            Denial::BadReport => b"bad revision report",
            Denial::BadDate => b"not a date",
        }
    }
}
