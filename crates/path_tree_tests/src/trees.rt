//! The folder `trunk` of the repository of small.dump (the ten revisions of the recordings), and what `svn` 1.14.2 said
//! as it brought it from one revision to another. Made by `svn ls -R`, `svn cat` and `svn proplist` of each path, and by
//! `svn update` and `svn checkout` of a working copy.
//!
//! A line of a revision has a letter for the text, the same for equal texts and `-` for a folder, one for the properties,
//! `-` where there are none, and the path. A line of what was said has D, A, R (D and A of another kind), T, P or B for
//! text, properties or both. Where `svn` says D and A of a path whose kind stays, a node without a common history came
//! in its place; here the line says what differs in the two revisions, and lines below the path say so too.

// `trunk` at revision 4.
pub(crate) const AT_4: &str =
    "-A \nA- README\n-- a\nB- a/x\nC- a-b\nD- a.b\nEB all-bytes.bin\nF- crlf.txt\n\
    G- empty\n-C lib\nHD lib/a.c\nI- lib/b.c\nJ- looks-like-a-dump\n-- moved  dir\n\
    K- moved  dir/file with  two spaces.txt\nL- naïve.txt\nM- naïve café.txt\nN- no-eol\n\
    O- percent%20and+plus&#x.txt\n-- sub\nP- sub/deep.txt\n-- 日本語\nQ- 日本語/файл.txt\n";

// `trunk` at revision 5.
pub(crate) const AT_5: &str =
    "-A \nA- README\n-- a\nR- a/y\nC- a-b\nD- a.b\nEB all-bytes.bin\n-- crlf.txt\n\
    G- empty\n-C lib\nHD lib/a.c\nI- lib/b.c\nJ- looks-like-a-dump\nS- moved  dir\nL- naïve.txt\n\
    M- naïve café.txt\nT- no-eol\nO- percent%20and+plus&#x.txt\n-- sub\nP- sub/deep.txt\n-- 日本語\n\
    Q- 日本語/файл.txt\n";

// `trunk` at revision 9.
pub(crate) const AT_9: &str =
    "-E \nA- README\n-- a\nR- a/y\nD- a-b\nD- a.b\nEB all-bytes.bin\n-- crlf.txt\n\
    -C lib\nHF lib/a.c\nI- lib/b.c\nJ- looks-like-a-dump\nS- moved  dir\nL- naïve.txt\nM- naïve café.txt\n\
    T- no-eol\nO- percent%20and+plus&#x.txt\nU- readme.txt\n-- sub\nP- sub/deep.txt\n";

// `svn update -r5` of a working copy at 4.
pub(crate) const FROM_4_TO_5: &str = "D a/x\nA a/y\nR crlf.txt\nR moved  dir\nT no-eol\n";

// `svn update -r4` of a working copy at 5.
pub(crate) const FROM_5_TO_4: &str = "A a/x\nD a/y\nR crlf.txt\nR moved  dir\n\
    A moved  dir/file with  two spaces.txt\nT no-eol\n";

// `svn update -r9` of a working copy at 5.
pub(crate) const FROM_5_TO_9: &str = "P \nT a-b\nD empty\nP lib/a.c\nA readme.txt\nD 日本語\n";

// `svn update -r4` of a working copy at 9.
pub(crate) const FROM_9_TO_4: &str =
    "P \nA a/x\nD a/y\nT a-b\nR crlf.txt\nA empty\nP lib/a.c\nR moved  dir\n\
    A moved  dir/file with  two spaces.txt\nT no-eol\nD readme.txt\nA 日本語\nA 日本語/файл.txt\n";

// `svn update -r9` of a working copy at 9 whose `lib` and `a` are at 4, and whose `README` is gone.
pub(crate) const MIXED_TO_9: &str = "A README\nD a/x\nA a/y\nP lib/a.c\n";

// `svn checkout -r5 --depth files`.
pub(crate) const FILES_OF_5: &str =
    "P \nA README\nA a-b\nA a.b\nA all-bytes.bin\nA empty\nA looks-like-a-dump\n\
    A moved  dir\nA naïve.txt\nA naïve café.txt\nA no-eol\nA percent%20and+plus&#x.txt\n";

// `svn checkout -r5 --depth immediates`.
pub(crate) const IMMEDIATES_OF_5: &str =
    "P \nA README\nA a\nA a-b\nA a.b\nA all-bytes.bin\nA crlf.txt\n\
    A empty\nA lib\nA looks-like-a-dump\nA moved  dir\nA naïve.txt\nA naïve café.txt\nA no-eol\n\
    A percent%20and+plus&#x.txt\nA sub\nA 日本語\n";

// The directories and files of the recording `checkout`, in its order.
pub(crate) const CHECKED_OUT: &str =
    "-- branches\n-- branches/b1\nA- branches/b1/README\n-- branches/b1/a\n\
    A- branches/b1/a/y\nA- branches/b1/a-b\nA- branches/b1/a.b\nA- branches/b1/all-bytes.bin\n\
    -- branches/b1/crlf.txt\nA- branches/b1/empty\n-- branches/b1/lib\nA- branches/b1/lib/a.c\n\
    A- branches/b1/lib/b.c\nA- branches/b1/lib/c.c\n-- branches/b1/lib/sub\nA- branches/b1/lib/sub/deep.txt\n\
    A- branches/b1/looks-like-a-dump\nA- branches/b1/moved  dir\nA- branches/b1/naïve.txt\n\
    A- branches/b1/naïve café.txt\nA- branches/b1/no-eol\nA- branches/b1/percent%20and+plus&#x.txt\n\
    -- branches/b1/sub\nA- branches/b1/sub/deep.txt\n-- branches/b1/日本語\nA- branches/b1/日本語/файл.txt\n\
    -- branches/b1-as-it-was\nA- branches/b1-as-it-was/a-b\nA- branches/b1-as-it-was/a.b\n\
    A- branches/b1-as-it-was/all-bytes.bin\nA- branches/b1-as-it-was/crlf.txt\nA- branches/b1-as-it-was/empty\n\
    -- branches/b1-as-it-was/lib\nA- branches/b1-as-it-was/lib/a.c\n-- branches/b1-as-it-was/lib/sub\n\
    A- branches/b1-as-it-was/lib/sub/deep.txt\nA- branches/b1-as-it-was/looks-like-a-dump\n\
    A- branches/b1-as-it-was/naïve.txt\n-- branches/b1-as-it-was/name with spaces\n\
    A- branches/b1-as-it-was/name with spaces/file with  two spaces.txt\n\
    A- branches/b1-as-it-was/naïve café.txt\n-- branches/b1-as-it-was/new\nA- branches/b1-as-it-was/new/file\n\
    A- branches/b1-as-it-was/no-eol\n-- branches/b1-as-it-was/old-lib\nA- branches/b1-as-it-was/old-lib/a.c\n\
    A- branches/b1-as-it-was/old-lib/b.c\n-- branches/b1-as-it-was/old-lib/sub\n\
    A- branches/b1-as-it-was/old-lib/sub/deep.txt\nA- branches/b1-as-it-was/percent%20and+plus&#x.txt\n\
    A- branches/b1-as-it-was/readme.txt\n-- branches/b1-as-it-was/日本語\nA- branches/b1-as-it-was/日本語/файл.txt\n\
    -- tags\n-- tags/1.0\nA- tags/1.0/README\n-- tags/1.0/a\nA- tags/1.0/a/y\nA- tags/1.0/a-b\nA- tags/1.0/a.b\n\
    A- tags/1.0/all-bytes.bin\n-- tags/1.0/crlf.txt\nA- tags/1.0/empty\n-- tags/1.0/lib\nA- tags/1.0/lib/a.c\n\
    A- tags/1.0/lib/b.c\nA- tags/1.0/lib/c.c\n-- tags/1.0/lib/sub\nA- tags/1.0/lib/sub/deep.txt\n\
    A- tags/1.0/looks-like-a-dump\nA- tags/1.0/moved  dir\nA- tags/1.0/naïve.txt\nA- tags/1.0/naïve café.txt\n\
    A- tags/1.0/no-eol\nA- tags/1.0/percent%20and+plus&#x.txt\n-- tags/1.0/sub\nA- tags/1.0/sub/deep.txt\n\
    -- tags/1.0/日本語\nA- tags/1.0/日本語/файл.txt\n-- trunk\nA- trunk/README\nA- trunk/README.copy\n-- trunk/a\n\
    A- trunk/a/y\nA- trunk/a-b\nA- trunk/a.b\nA- trunk/all-bytes.bin\n-- trunk/crlf.txt\n-- trunk/lib\n\
    A- trunk/lib/a.c\nA- trunk/lib/b.c\nA- trunk/looks-like-a-dump\nA- trunk/moved  dir\nA- trunk/naïve.txt\n\
    A- trunk/naïve café.txt\nA- trunk/no-eol\nA- trunk/percent%20and+plus&#x.txt\nA- trunk/readme.txt\n\
    -- trunk/sub\nA- trunk/sub/deep.txt\n";
