//! The commands and their words, as data: what is read of them, and what help says.

/// What stands for a word on the command line.
pub enum WordKind<'a> {
    /// A word that has to be there.
    Place,
    /// Words, one at least.
    Places,
    /// An option with a long name and one value, which help calls so and which has to be there.
    Named(&'a str),
    /// An option with a long name and one value, which help calls so and which may be left out.
    Optional(&'a str),
    /// An option with a long name and no value.
    Flag,
    /// `-r LO:HI`, which has to be there or may be left out.
    Range { required: bool },
}

/// A word of a command.
pub struct Word<'a> {
    /// What it is called.
    pub name: &'a str,
    /// What stands for it.
    pub kind: WordKind<'a>,
    /// What help says of it.
    pub help: &'a str,
}

/// A command.
pub struct Subcommand<'a> {
    /// Its name.
    pub name: &'a str,
    /// What it does, in a line.
    pub about: &'a str,
    /// What its help says below its words.
    pub after_help: &'a str,
    /// Its words, in the order of its help.
    pub words: &'a [Word<'a>],
}
