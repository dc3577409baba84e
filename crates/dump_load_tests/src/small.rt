//! Revisions 0 to 10 of a repository that `svnadmin dump` wrote, and what Subversion 1.14.2 tells of them: of histories,
//! logs and places what `svnserve -t` answered `log` and `get-locations`, of changed paths what `svn log -v --xml` told.

/// What each revision of the repository changes, from 0 on: a line for each record of its dump.
pub(crate) const REVISIONS: [&str; 11] = [
    "",
    "add|branches|dir|e\nadd|tags|dir|e\nadd|trunk|dir|e\nadd|trunk/a|dir|e\nadd|trunk/a/x|file|te\nadd|trunk/a-b|file|te\nadd|trunk/a.b|file|te\nadd|trunk/all-bytes.bin|file|te\nadd|trunk/crlf.txt|file|te\nadd|trunk/empty|file|te\nadd|trunk/lib|dir|e\nadd|trunk/lib/a.c|file|te\nadd|trunk/lib/b.c|file|te\nadd|trunk/lib/sub|dir|e\nadd|trunk/lib/sub/deep.txt|file|te\nadd|trunk/looks-like-a-dump|file|te\nadd|trunk/naïve.txt|file|te\nadd|trunk/name with spaces|dir|e\nadd|trunk/name with spaces/file with  two spaces.txt|file|te\nadd|trunk/naïve café.txt|file|te\nadd|trunk/no-eol|file|te\nadd|trunk/percent%20and+plus&#x.txt|file|te\nadd|trunk/readme.txt|file|te\nadd|trunk/日本語|dir|e\nadd|trunk/日本語/файл.txt|file|te",
    "change|/|dir|p\nchange|trunk|dir|p\nchange|trunk/all-bytes.bin|file|p\nchange|trunk/lib|dir|p\nchange|trunk/lib/a.c|file|p\nchange|trunk/no-eol|file|t\nchange|trunk/readme.txt|file|t",
    "add|branches/b1|dir|-|trunk|2\nchange|branches/b1/lib/a.c|file|t\nchange|branches/b1/lib/sub|dir|p\ndelete|branches/b1/lib/b.c|-|-\nadd|branches/b1/new|dir|e\nadd|branches/b1/new/file|file|te\nadd|branches/b1/old-lib|dir|-|trunk/lib|1\ndelete|branches/b1/a|-|-",
    "add|trunk/README|file|-|trunk/readme.txt|3\ndelete|trunk/lib/sub|-|-\nadd|trunk/moved  dir|dir|-|trunk/name with spaces|3\nadd|trunk/sub|dir|-|trunk/lib/sub|3\nchange|trunk/sub/deep.txt|file|t\ndelete|trunk/name with spaces|-|-\ndelete|trunk/readme.txt|-|-",
    "replace|trunk/a|dir|e\nadd|trunk/a/y|file|te\nreplace|trunk/crlf.txt|dir|e\nreplace|trunk/moved  dir|file|te\nreplace|trunk/no-eol|file|te",
    "delete|branches/b1|-|-\nadd|branches/b1|dir|-|trunk|5\nreplace|branches/b1/README|file|te\ndelete|branches/b1/lib|-|-\nadd|branches/b1/lib|dir|-|trunk/lib|1\nadd|branches/b1/lib/c.c|file|te\ndelete|trunk/a-b|-|-\nadd|trunk/a-b|file|-|trunk/a.b|1",
    "",
    "change|/|dir|p\nchange|trunk|dir|p\nchange|trunk/lib/a.c|file|p",
    "add|branches/b1-as-it-was|dir|-|branches/b1|3\nadd|tags/1.0|dir|-|branches/b1|8\nadd|trunk/readme.txt|file|-|trunk/readme.txt|1\ndelete|trunk/empty|-|-\ndelete|trunk/日本語|-|-",
    "change|trunk|dir|p\nadd|trunk/README.copy|file|t|trunk/README|9\nchange|trunk/lib/b.c|file|t",
];

/// A path, the revision that it is of, `x` across copies or `s` without, the lowest and the highest revision and a
/// limit; and the revisions that are told.
pub(crate) const HISTORIES: [(&str, &str); 61] = [
    ("/|10|x|0|10|0", "10 9 8 7 6 5 4 3 2 1 0"),
    ("/|10|s|0|10|0", "10 9 8 7 6 5 4 3 2 1 0"),
    ("trunk|10|x|0|10|0", "10 9 8 6 5 4 2 1"),
    ("trunk|10|s|0|10|0", "10 9 8 6 5 4 2 1"),
    ("trunk/lib|10|x|0|10|0", "10 8 4 2 1"),
    ("trunk/lib|10|s|0|10|0", "10 8 4 2 1"),
    ("trunk/lib/a.c|10|x|0|10|0", "8 2 1"),
    ("trunk/lib/a.c|10|s|0|10|0", "8 2 1"),
    ("trunk/readme.txt|10|x|0|10|0", "9 1"),
    ("trunk/readme.txt|10|s|0|10|0", "9"),
    ("trunk/README.copy|10|x|0|10|0", "10 4 2 1"),
    ("trunk/README.copy|10|s|0|10|0", "10"),
    ("trunk/sub/deep.txt|10|x|0|10|0", "4 1"),
    ("trunk/sub/deep.txt|10|s|0|10|0", "4"),
    ("trunk/moved  dir|10|x|0|10|0", "5"),
    ("trunk/moved  dir|10|s|0|10|0", "5"),
    ("trunk/a-b|10|x|0|10|0", "6 1"),
    ("trunk/a-b|10|s|0|10|0", "6"),
    ("trunk/a.b|10|x|0|10|0", "1"),
    ("trunk/a.b|10|s|0|10|0", "1"),
    ("trunk/a/y|10|x|0|10|0", "5"),
    ("trunk/a/y|10|s|0|10|0", "5"),
    ("trunk/crlf.txt|10|x|0|10|0", "5"),
    ("trunk/crlf.txt|10|s|0|10|0", "5"),
    ("branches|10|x|0|10|0", "9 6 3 1"),
    ("branches|10|s|0|10|0", "9 6 3 1"),
    ("branches/b1|10|x|0|10|0", "6 5 4 2 1"),
    ("branches/b1|10|s|0|10|0", "6"),
    ("branches/b1/lib|10|x|0|10|0", "6 1"),
    ("branches/b1/lib|10|s|0|10|0", "6"),
    ("branches/b1/lib/c.c|10|x|0|10|0", "6"),
    ("branches/b1/lib/c.c|10|s|0|10|0", "6"),
    ("branches/b1/lib/a.c|10|x|0|10|0", "6 1"),
    ("branches/b1/lib/a.c|10|s|0|10|0", "6"),
    ("branches/b1/README|10|x|0|10|0", "6"),
    ("branches/b1/README|10|s|0|10|0", "6"),
    ("branches/b1/sub/deep.txt|10|x|0|10|0", "6 4 1"),
    ("branches/b1/sub/deep.txt|10|s|0|10|0", "6"),
    ("branches/b1-as-it-was|10|x|0|10|0", "9 3 2 1"),
    ("branches/b1-as-it-was|10|s|0|10|0", "9"),
    (
        "branches/b1-as-it-was/old-lib/sub/deep.txt|10|x|0|10|0",
        "9 3 1",
    ),
    (
        "branches/b1-as-it-was/old-lib/sub/deep.txt|10|s|0|10|0",
        "9",
    ),
    ("branches/b1-as-it-was/new/file|10|x|0|10|0", "9 3"),
    ("branches/b1-as-it-was/new/file|10|s|0|10|0", "9"),
    ("tags/1.0/lib/sub/deep.txt|10|x|0|10|0", "9 6 1"),
    ("tags/1.0/lib/sub/deep.txt|10|s|0|10|0", "9"),
    ("tags/1.0/sub|10|x|0|10|0", "9 6 4 1"),
    ("tags/1.0/sub|10|s|0|10|0", "9"),
    ("trunk/empty|8|x|0|8|0", "1"),
    ("trunk/empty|8|s|0|8|0", "1"),
    ("trunk/readme.txt|3|x|0|3|0", "2 1"),
    ("trunk/readme.txt|3|s|0|3|0", "2 1"),
    (
        "trunk/name with spaces/file with  two spaces.txt|3|x|0|3|0",
        "1",
    ),
    (
        "trunk/name with spaces/file with  two spaces.txt|3|s|0|3|0",
        "1",
    ),
    ("branches/b1/lib/sub|5|x|0|5|0", "3 1"),
    ("branches/b1/lib/sub|5|s|0|5|0", "3"),
    ("trunk/lib|10|x|2|8|0", "8 4 2"),
    ("trunk/lib|10|x|0|10|2", "10 8"),
    ("trunk/lib|10|x|3|7|1", "4"),
    ("branches/b1-as-it-was|10|x|0|4|0", "3 2 1"),
    ("trunk/README.copy|10|x|4|9|1", "4"),
];

/// `x` or `s`, and paths of revision 10; and the revisions that their log tells, oldest first.
pub(crate) const LOGS: [(&str, &str); 6] = [
    ("x|trunk/lib|trunk/a", "1 2 4 5 8 10"),
    ("x|tags|branches/b1", "1 2 4 5 6 9"),
    ("s|tags|branches/b1", "1 6 9"),
    (
        "x|trunk/readme.txt|trunk/README|trunk/README.copy",
        "1 2 4 9 10",
    ),
    ("x|/|trunk/a", "0 1 2 3 4 5 6 7 8 9 10"),
    ("s|trunk/no-eol|trunk/a.b", "1 5"),
];

/// A path and the revision that it is of; and where that was in the revisions 0 to 10, `-` for nowhere.
pub(crate) const PLACES: [(&str, &str); 7] = [
    (
        "trunk/README.copy|10",
        "-|trunk/readme.txt|trunk/readme.txt|trunk/readme.txt|trunk/README|trunk/README|trunk/README|trunk/README|trunk/README|trunk/README|trunk/README.copy",
    ),
    (
        "branches/b1/lib/a.c|10",
        "-|trunk/lib/a.c|-|-|-|-|branches/b1/lib/a.c|branches/b1/lib/a.c|branches/b1/lib/a.c|branches/b1/lib/a.c|branches/b1/lib/a.c",
    ),
    (
        "trunk/sub/deep.txt|10",
        "-|trunk/lib/sub/deep.txt|trunk/lib/sub/deep.txt|trunk/lib/sub/deep.txt|trunk/sub/deep.txt|trunk/sub/deep.txt|trunk/sub/deep.txt|trunk/sub/deep.txt|trunk/sub/deep.txt|trunk/sub/deep.txt|trunk/sub/deep.txt",
    ),
    (
        "trunk/readme.txt|10",
        "-|trunk/readme.txt|-|-|-|-|-|-|-|trunk/readme.txt|trunk/readme.txt",
    ),
    (
        "tags/1.0/lib/sub/deep.txt|10",
        "-|trunk/lib/sub/deep.txt|-|-|-|-|branches/b1/lib/sub/deep.txt|branches/b1/lib/sub/deep.txt|branches/b1/lib/sub/deep.txt|tags/1.0/lib/sub/deep.txt|tags/1.0/lib/sub/deep.txt",
    ),
    (
        "branches/b1-as-it-was/old-lib|10",
        "-|trunk/lib|-|branches/b1/old-lib|-|-|-|-|-|branches/b1-as-it-was/old-lib|branches/b1-as-it-was/old-lib",
    ),
    (
        "trunk/moved  dir|4",
        "-|trunk/name with spaces|trunk/name with spaces|trunk/name with spaces|trunk/moved  dir|-|-|-|-|-|-",
    ),
];

/// What `svn log -v` tells of the changes of each revision, in path order: the letter, the kind, `t` for a text and `p`
/// for properties.
pub(crate) const CHANGED: [&str; 11] = [
    "",
    "A dir --\nA dir --\nA dir --\nA dir --\nA file t-\nA file t-\nA file t-\nA file t-\nA file t-\nA file t-\nA dir --\nA file t-\nA file t-\nA dir --\nA file t-\nA file t-\nA file t-\nA dir --\nA file t-\nA file t-\nA file t-\nA file t-\nA file t-\nA dir --\nA file t-",
    "M dir -p\nM dir -p\nM file -p\nM dir -p\nM file -p\nM file t-\nM file t-",
    "A dir --\nD dir --\nM file t-\nD file --\nM dir -p\nA dir --\nA file t-\nA dir --",
    "A file --\nD dir --\nA dir --\nD dir --\nD file --\nA dir --\nM file t-",
    "R dir --\nA file t-\nR dir --\nR file t-\nR file t-",
    "R dir --\nR file t-\nR dir --\nA file t-\nR file --",
    "",
    "M dir -p\nM dir -p\nM file -p",
    "A dir --\nA dir --\nD file --\nA file --\nD dir --",
    "M dir -p\nA file t-\nM file t-",
];

/// A path and the revision that it is of; and its stretches as `get-location-segments` told them, without the gaps.
pub(crate) const STRETCHES: [(&str, &str); 7] = [
    (
        "trunk/README.copy|10",
        "10-10 trunk/README.copy|4-9 trunk/README|1-3 trunk/readme.txt|",
    ),
    (
        "branches/b1/lib/a.c|10",
        "6-10 branches/b1/lib/a.c|1-1 trunk/lib/a.c|",
    ),
    (
        "trunk/sub/deep.txt|10",
        "4-10 trunk/sub/deep.txt|1-3 trunk/lib/sub/deep.txt|",
    ),
    (
        "trunk/readme.txt|10",
        "9-10 trunk/readme.txt|1-1 trunk/readme.txt|",
    ),
    (
        "tags/1.0/lib/sub/deep.txt|10",
        "9-10 tags/1.0/lib/sub/deep.txt|6-8 branches/b1/lib/sub/deep.txt|1-1 trunk/lib/sub/deep.txt|",
    ),
    ("trunk/lib|10", "1-10 trunk/lib|"),
    (
        "trunk/moved  dir|4",
        "4-4 trunk/moved  dir|1-3 trunk/name with spaces|",
    ),
];
