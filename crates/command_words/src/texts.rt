//! What the help says below the words.

/// Of the program: its status, what a refusal may mean, and what a repository has to keep.
pub const PROGRAM: &str = "\
The status is 0; 1 where the input is refused or a stream or the device failed, with the one line
`svnfleet: NUMBER TEXT` on standard error; 2 where the words are wrong.
31 of a folder means that another command has it open, that it may not be read and written, that its
file system can't be written, that the disk is full or fails, or that DIR is a file.
Each command over a folder holds all texts of its repository in memory.
A repository has the revisions 0 to 65535, each of at most 4096 changes; a path has at most 1024 bytes
and 64 names, a name 255 bytes, a text 1 MiB, a property value 64 KiB.";

/// Of `list` and `canon`: which dumps are read.
pub const DUMPS: &str = "\
Reads dumps of formats 2 and 3: what `svnadmin dump` writes, with --incremental or without. The first revision
of a dump is 0 or 1, and each other one the next (16).
With --deltas texts that the dump gives as deltas are taken, as `svnadmin dump --deltas` and `svnrdump dump` write them.
Without it the first such text is refused (9).";

/// Of `create`.
pub const CREATE: &str = "\
Prints nothing. Nothing is made in a folder that has a file `journal`, `gate` or `slots` that isn't empty (35).
The folder above has to be there.";

/// Of `load`.
pub const LOAD: &str = "\
Reads dumps of formats 2 and 3: what `svnadmin dump` writes, with --incremental or without.
With --deltas texts that the dump gives as deltas are taken, as `svnadmin dump --deltas` and `svnrdump dump` write them.
Without it the first such text is refused (9). So a repository on another machine is loaded by
`svnrdump dump https://host/repository >dump && svnfleet load --deltas archive <dump`.
Prints `Loaded revision N.` for each revision that is committed, nothing for revision 0, whose properties are
taken while there is no other. What was committed before a refusal stays.
The status is 0; 1 with a line where the dump is refused or the device fails; 2 where the words are wrong.";

/// Of `dump`.
pub const DUMP: &str = "\
Prints the dump: its head with the identity, and the revisions with the properties that they have now,
revision 0 too where the range has it. Where nobody reads on, as behind `| head`, it ends with 49, since a
dump that was cut must not pass for a whole one.
The status is 0; 1 with a line where HI is above the head or the device fails; 2 where the words are wrong.";

/// Of `head`.
pub const HEAD: &str = "\
Prints the number of the newest revision of the archive or mirror in DIR, and nothing else: 0 of one that `create`
has begun. As every command over a folder it holds DIR while it runs (31), and reads every entry.
The status is 0; 1 with a line where the folder can't be opened (31, 33, 34) or the device fails; 2 where the words
are wrong.";

/// Of `mkdir`.
pub const MKDIR: &str = "\
Prints `Committed revision N.` A TEXT with a carriage return is refused (status 2), since Subversion takes no
such log message: its lines end with line feeds alone.";

/// Of `upgrade`.
pub const UPGRADE: &str = "\
Writes the sum of each entry of DIR's journal beside its length, so that a byte that changes is found, and told by
its entry (33), when the repository is opened again. Each folder that `create` makes has these sums; one that was
made before there were any is read and changed without them, until this command. The history stays, a mirror's
and its lock too. Afterwards a svnfleet from before can't open the folder.
Prints `Upgraded N entries.`: 0, with nothing changed, where the sums are there already.
It may be stopped at any moment, and run again: the repository is there meanwhile, and afterwards.
The status is 0; 1 with a line where the folder can't be opened or the device fails; 2 where the words are wrong.";

/// Of `initialize`.
pub const INITIALIZE: &str = "\
Begins a mirror: MIRROR is a repository that `create` has begun and that has no revision, and is given the
properties of SOURCE's revision 0. Prints `Copied properties for revision 0.`
SOURCE is a folder, or svn://127.0.0.1:P/ for the repository that `svnfleet serve` or `svnserve` has on that port.
SOURCE is kept, as it is given, in the mirror's property svn:sync-from-url. From then on `load` and `mkdir`
refuse MIRROR (24): `synchronize` alone gives it revisions.
The status is 0; 1 with a line where a folder can't be opened, nobody listens on the port (49), the server
refuses or says nothing for so many SECONDS (60), MIRROR is a mirror already (52) or has revisions (53), or
the device fails; 2 where the words are wrong.";

/// Of `synchronize`.
pub const SYNCHRONIZE: &str = "\
Commits to MIRROR each revision of SOURCE that it lacks, one after another, with its properties, and prints
`Committed revision N.` and `Copied properties for revision N.` as soon as that is done. Where there is none
it prints nothing. It goes on where a run before it was stopped.
While it runs MIRROR has a sync lock with the token T. A run that was stopped leaves its lock, and the next
is refused (54) until it is run with --steal-lock. The folders are held while it runs: a run beside it is
refused with 31, so a lock that --steal-lock takes is one of a run that has ended.
SOURCE is a folder, or svn://127.0.0.1:P/ for the repository that `svnfleet serve` or `svnserve` has on that port.
The status is 0; 1 with a line where a folder can't be opened, nobody listens on the port (49), the server
refuses or says nothing for so many SECONDS (60), SOURCE is another repository than the one that MIRROR was
initialized from (56) or the device fails; 2 where the words are wrong.";

/// Of `copy-revprops`.
pub const COPY_REVPROPS: &str = "\
Copies the properties of SOURCE's revisions LO to HI to MIRROR again, as when they were changed behind a
`synchronize`, and prints `Copied properties for revision N.` for each. Nothing is copied where MIRROR lacks
one of them (58). Properties whose names begin with svn:sync- stay as they are.
While it runs MIRROR has a sync lock with the token T; `synchronize --steal-lock` takes one that was left.
SOURCE is a folder, or svn://127.0.0.1:P/ for the repository that `svnfleet serve` or `svnserve` has on that port.
The status is 0; 1 with a line where it is refused or the device fails; 2 where the words are wrong.";

/// Of `info`.
pub const INFO: &str = "\
Prints the source of MIRROR as `initialize` was given it, the identity of that repository, and the last
revision that is copied whole, a line each.
The status is 0; 1 with a line where the folder can't be opened, its repository is no mirror (51) or its
properties were changed by hand (57), or the device fails; 2 where the words are wrong.";

/// Of `serve`.
pub const SERVE: &str = "\
Serves the repository to Subversion's svnsync and svnrdump over svn://, on 127.0.0.1 alone, so to this machine:
it asks for no password. Prints `listening on 127.0.0.1:P` once it listens, and ends when N connections have
ended, those that failed among them; a client may make more than one. Another repository is begun as a copy by
`svnsync init file:///PATH svn://127.0.0.1:P/`, and brought up to DIR by `svnsync sync file:///PATH`.
Nothing is committed to DIR. Properties of revisions that a client changes are changed in DIR, unless it is a
mirror, which is served read-only (24). Each change that was answered stands after a stop.
svnsync and svnrdump take the repository only under the URL that they are told as its root. To those that come by another
port or name, as by a tunnel, --root-url tells the URL that they name: svn:// or svn+ssh:// and a host, and a port and a
path where there are some, at most 1024 printable ASCII characters without blanks. It is told as it is given.
With --browse `svn ls`, `cat`, `info`, `log`, `blame`, `proplist` and `propget` are answered, of each path in each
revision, which is named as URL@N or by -r, and for working copies `checkout`, `export`, `update`, `switch`, `diff` and
`status -u`, by each port and name that clients come by. svnsync, svnrdump, mirrors and changes of properties are
refused then.
A client that says nothing, or reads nothing, for SECONDS ends its own connection. One that can't be accepted, as
where too many files are open, waits until another has ended. Standard error has a line for that (49) and for a
connection in which the device failed (31, 32), the journal was full (36) or memory ran out (70), one for each number
in a minute at most; the command goes on, and its status stays.
The folder is held while it serves: another command over it is refused with 31.
The status is 0; 1 with a line where the folder can't be opened, or the port can't be listened on or the line
not be written (49); 2 where the words are wrong.";

/// Of `fleet`.
pub const FLEET: &str = "\
Does for each MIRROR what `synchronize MIRROR MASTER --token fleet-N` does, N being its place among the mirrors, K of
them at a time, each in a thread, over one MASTER that is read once. Prints a line for each MIRROR, in the order in which
they are named, once all have ended: `MIRROR: head N` with its newest revision, or `MIRROR: NUMBER TEXT` where it was
refused, as when its folder can't be opened, or its lock is held by a run that was stopped (54), of which
`synchronize --steal-lock` takes it. A mirror that is refused stops no other. No folder may be named twice. All folders
are held while it runs.
The status is 0; 1 where a mirror was refused, or, with a line on standard error and nothing printed, where MASTER
can't be opened, or where memory ran out; 2 where the words are wrong.";
