//! The commands of the program, in the order of its help.

use crate::texts;
use crate::word::{Subcommand, Word, WordKind};

// The folder that a command over one repository is about.
const DIR: Word<'static> = Word {
    name: "DIR",
    kind: WordKind::Place,
    help: "The folder of the repository",
};

// Texts of a dump on standard input that are given as deltas.
const DELTAS: Word<'static> = Word {
    name: "deltas",
    kind: WordKind::Flag,
    help: "Take texts that the dump gives as deltas, as `svnrdump dump` writes them",
};

const MIRROR: Word<'static> = Word {
    name: "MIRROR",
    kind: WordKind::Place,
    help: "The folder of the mirror",
};

const SOURCE: Word<'static> = Word {
    name: "SOURCE",
    kind: WordKind::Place,
    help: "The folder of its source, or svn://127.0.0.1:P/ where `svnfleet serve` or `svnserve` has it",
};

const TOKEN: Word<'static> = Word {
    name: "token",
    kind: WordKind::Optional("T"),
    help: "The token of the sync lock: 1 to 255 printable ASCII characters without blanks; job where it is left out",
};

const TIMEOUT: Word<'static> = Word {
    name: "timeout",
    kind: WordKind::Optional("SECONDS"),
    help: "How long a server as source may say nothing, from 1 to 43200 seconds; 600 where it is left out",
};

/// The commands over a dump, or over one repository.
pub const ARCHIVE: &[Subcommand<'static>] = &[
    Subcommand {
        name: "list",
        about: "Dump: reads one on standard input and prints its newest tree",
        after_help: texts::DUMPS,
        words: &[DELTAS],
    },
    Subcommand {
        name: "canon",
        about: "Dump: reads one on standard input and writes it in its canonical spelling",
        after_help: texts::DUMPS,
        words: &[DELTAS],
    },
    Subcommand {
        name: "create",
        about: "Archive or mirror: begins an empty repository in a folder",
        after_help: texts::CREATE,
        words: &[
            Word {
                name: "DIR",
                kind: WordKind::Place,
                help: "The folder, which is made where it is missing",
            },
            Word {
                name: "uuid",
                kind: WordKind::Named("UUID"),
                help: "The identity, as 8-4-4-4-12 hexadecimal digits; capital letters become small",
            },
        ],
    },
    Subcommand {
        name: "load",
        about: "Archive: loads a dump on standard input into a folder's repository",
        after_help: texts::LOAD,
        words: &[DIR, DELTAS],
    },
    Subcommand {
        name: "dump",
        about: "Archive or mirror: writes a folder's repository as a dump, each revision by its changes",
        after_help: texts::DUMP,
        words: &[
            DIR,
            Word {
                name: "revisions",
                kind: WordKind::Range { required: false },
                help: "The first and the last revision to write, N:N for one; all where it is left out",
            },
        ],
    },
    Subcommand {
        name: "head",
        about: "Archive or mirror: prints the number of its newest revision",
        after_help: texts::HEAD,
        words: &[DIR],
    },
    Subcommand {
        name: "mkdir",
        about: "Archive: commits one directory to a folder's repository",
        after_help: texts::MKDIR,
        words: &[
            DIR,
            Word {
                name: "PATH",
                kind: WordKind::Place,
                help: "The directory, without a slash in front",
            },
            Word {
                name: "message",
                kind: WordKind::Named("TEXT"),
                help: "The text of svn:log, without carriage returns",
            },
            Word {
                name: "moment",
                kind: WordKind::Named("MICROS"),
                help: "The microseconds since 1970 for svn:date",
            },
        ],
    },
    Subcommand {
        name: "upgrade",
        about: "Archive or mirror: gives the entries of a folder's repository their sums",
        after_help: texts::UPGRADE,
        words: &[DIR],
    },
];

/// The commands over mirrors, and what serves.
pub const MIRRORS: &[Subcommand<'static>] = &[
    Subcommand {
        name: "initialize",
        about: "Mirror: makes an empty repository the mirror of a source",
        after_help: texts::INITIALIZE,
        words: &[MIRROR, SOURCE, TIMEOUT],
    },
    Subcommand {
        name: "synchronize",
        about: "Mirror: brings it up to its source",
        after_help: texts::SYNCHRONIZE,
        words: &[
            MIRROR,
            SOURCE,
            Word {
                name: "steal-lock",
                kind: WordKind::Flag,
                help: "Take the sync lock though it is held, by a run that was stopped",
            },
            Word {
                name: "deltas",
                kind: WordKind::Flag,
                help: "Take texts as differences, as Subversion's own svnserve sends them",
            },
            TOKEN,
            TIMEOUT,
        ],
    },
    Subcommand {
        name: "copy-revprops",
        about: "Mirror: copies the properties of revisions to it again",
        after_help: texts::COPY_REVPROPS,
        words: &[
            MIRROR,
            SOURCE,
            Word {
                name: "revisions",
                kind: WordKind::Range { required: true },
                help: "The first and the last revision to copy, N:N for one",
            },
            TOKEN,
            TIMEOUT,
        ],
    },
    Subcommand {
        name: "info",
        about: "Mirror: tells where it is copied from, and how far it is",
        after_help: texts::INFO,
        words: &[MIRROR],
    },
    Subcommand {
        name: "serve",
        about: "Serve: gives an archive or a mirror to svnsync and other clients on this machine",
        after_help: texts::SERVE,
        words: &[
            DIR,
            Word {
                name: "port",
                kind: WordKind::Named("P"),
                help: "The port of 127.0.0.1, from 1 to 65535",
            },
            Word {
                name: "connections",
                kind: WordKind::Named("N"),
                help: "The number of connections, from 1 to 1024, after which it ends",
            },
            Word {
                name: "timeout",
                kind: WordKind::Optional("SECONDS"),
                help: "How long a client may say nothing, from 1 to 43200 seconds; 600 where it is left out",
            },
            Word {
                name: "root-url",
                kind: WordKind::Optional("URL"),
                help: "The URL that clients are told as the repository's root; svn://127.0.0.1:P/ where it is left out",
            },
            Word {
                name: "browse",
                kind: WordKind::Flag,
                help: "Answer readers with svn, working copies too, and not svnsync and svnrdump",
            },
        ],
    },
    Subcommand {
        name: "fleet",
        about: "Mirror: brings several up to their source at once",
        after_help: texts::FLEET,
        words: &[
            Word {
                name: "MASTER",
                kind: WordKind::Place,
                help: "The folder of the master",
            },
            Word {
                name: "MIRROR",
                kind: WordKind::Places,
                help: "The folders of its mirrors, from 1 to 4",
            },
            Word {
                name: "workers",
                kind: WordKind::Named("K"),
                help: "The number of mirrors that are brought up at a time, from 1 to 64",
            },
        ],
    },
];
