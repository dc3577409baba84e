//! Bytes that clients of Subversion 1.14.2 sent, and that they took as answers.

// What svnrdump and svnsync sent first, and how they said who they are; each token ends with a line feed.
pub const HELLO: &[u8] =
    b"( 2 ( edit-pipeline svndiff1 accepts-svndiff2 absent-entries depth mergeinfo log-revprops ) 21:svn://127.0.0.1:59875 32:SVN/1.14.2 (x86_64-pc-linux-gnu) ( ) ) ";

pub const LOGIN: &[u8] = b"( ANONYMOUS ( 17:YW5vbnltb3VzQHZt\n ) ) ";

// The commands of `svnrdump dump`.
pub const DUMP: &[u8] =
    b"( get-latest-rev ( ) ) ( rev-proplist ( 0 ) ) ( replay-range ( 1 10 0 true ) ) ";

// Those of `svnsync init`, of `svnsync sync` with all revisions, and of a session of svnsync that asks for properties
// alone.
pub const INIT: &[u8] = b"( rev-proplist ( 0 ) ) ";

pub const SYNC: &[u8] = b"( get-latest-rev ( ) ) ( replay-range ( 1 10 0 true ) ) ";

pub const COPY: &[u8] =
    b"( rev-proplist ( 0 ) ) ( rev-proplist ( 1 ) ) ( rev-proplist ( 2 ) ) ( rev-proplist ( 3 ) ) ( rev-proplist ( 4 ) ) ( rev-proplist ( 5 ) ) ( rev-proplist ( 6 ) ) ( rev-proplist ( 7 ) ) ( rev-proplist ( 8 ) ) ( rev-proplist ( 9 ) ) ( rev-proplist ( 10 ) ) ";

// What a server answered in the opening.
pub const GREETING: &[u8] = b"( success ( 2 2 ( ) ( edit-pipeline atomic-revprops ) ) ) ";

pub const MECHANISMS: &[u8] =
    b"( success ( ( ANONYMOUS ) 36:6a1f0c3e-0000-4000-8000-0000000000a1 ) ) ";

pub const DONE: &[u8] = b"( success ( ) ) ";

pub const WELCOME: &[u8] =
    b"( success ( 36:6a1f0c3e-0000-4000-8000-0000000000a1 22:svn://127.0.0.1:59875/ ( ) ) ) ";

pub const AUTHORISED: &[u8] = b"( success ( ( ) 0: ) ) ";

// Revision 0's properties, and those of revision 2 in front of its edit.
pub const PROPLIST: &[u8] =
    b"( success ( ( ( 11:custom:zero 13:on revision 0 ) ( 8:svn:date 27:2020-01-01T00:00:00.000000Z ) ) ) ) ";

pub const REVPROPS: &[u8] =
    b"( revprops ( ( 9:review:by 5:carol ) ( 10:svn:author 4:b\xc3\xb6b ) ( 8:svn:date 27:2020-01-01T00:33:20.015838Z ) ( 7:svn:log 20:edits and properties ) ) ) ";

// What follows was recorded between Subversion 1.14.2's clients and its `svnserve`, on one machine.

// Each is a session's commands: `svn propset --revprop` twice, and `svn propdel --revprop`.
pub const CHANGES: &[u8] =
    b"( change-rev-prop2 ( 1 7:svn:log ( 15:second thoughts ) ( true ) ) ) ( change-rev-prop2 ( 1 8:custom:x ( 1:v ) ( true ) ) ) ( change-rev-prop2 ( 1 8:custom:x ( ) ( true ) ) ) ";

// What `svnsync init` sends a mirror: it takes the lock, puts what it notes, and gives the lock back.
pub const MIRROR: &[u8] =
    b"( rev-prop ( 0 13:svn:sync-lock ) ) ( change-rev-prop2 ( 0 13:svn:sync-lock ( 39:vm:f15eae09-a951-4dcb-9d4c-4d8126927a77 ) ( false ) ) ) ( rev-prop ( 0 13:svn:sync-lock ) ) ( get-latest-rev ( ) ) ( rev-prop ( 0 17:svn:sync-from-url ) ) ( change-rev-prop2 ( 0 17:svn:sync-from-url ( 25:svn://127.0.0.1:46902/src ) ( true ) ) ) ( change-rev-prop2 ( 0 18:svn:sync-from-uuid ( 36:709bc996-b9ae-4bf5-b01b-066d8cc89755 ) ( true ) ) ) ( change-rev-prop2 ( 0 24:svn:sync-last-merged-rev ( 1:0 ) ( true ) ) ) ( change-rev-prop2 ( 0 8:svn:date ( 27:2026-11-24T04:33:17.789805Z ) ( true ) ) ) ( rev-prop ( 0 13:svn:sync-lock ) ) ( change-rev-prop2 ( 0 13:svn:sync-lock ( ) ( false 39:vm:f15eae09-a951-4dcb-9d4c-4d8126927a77 ) ) ) ";

// What `svn import` and `svn cat` ask of a directory and a file, `svn ls` of a directory, and what comes of each.
pub const LOOKS: [(&[u8], &[u8]); 5] = [
    (
        b"( check-path ( 0: ( 1 ) ) ) ( reparent ( 25:svn://127.0.0.1:46902/src ) ) ",
        b"( check-path ( 0: ( 1 ) ) ) 47 ",
    ),
    (
        b"( get-dir ( 1:a ( 1 ) true false ( kind ) false ) ) ",
        b"( get-dir ( 1:a ( 1 ) true false ) ) ",
    ),
    (b"( get-iprops ( 1:a ( 1 ) ) ) ", b"47 "),
    (
        b"( get-file ( 0: ( 2 ) true false  false ) ) ( get-file ( 0: ( 2 ) false true  false ) ) ",
        b"( get-file ( 0: ( 2 ) true false ) ) ( get-file ( 0: ( 2 ) false true ) ) ",
    ),
    (b"( list ( 0: ( 1 ) immediates ( kind ) ) ) ", b"47 "),
];

// How `svnserve` greets and welcomes.
pub const SVNSERVE: &[u8] =
    b"( success ( 2 2 ( ) ( edit-pipeline svndiff1 accepts-svndiff2 absent-entries commit-revprops depth log-revprops atomic-revprops partial-replay inherited-props ephemeral-txnprops file-revs-reverse list ) ) ) ";

pub const SVNSERVE_WELCOME: &[u8] =
    b"( success ( 36:709bc996-b9ae-4bf5-b01b-066d8cc89755 25:svn://127.0.0.1:46902/src ( mergeinfo ) ) ) ";

// What it answers to `get-dir`, to `get-file`, and where there is no such file.
pub const SVNSERVE_DIR: &[u8] =
    b"( success ( 1 ( ( 14:svn:entry:uuid 36:709bc996-b9ae-4bf5-b01b-066d8cc89755 ) ( 23:svn:entry:committed-rev 1:1 ) ( 24:svn:entry:committed-date 27:2026-11-24T04:33:19.613491Z ) ) ( ) ) ) ";

pub const SVNSERVE_FILE: &[u8] =
    b"( success ( ( 32:b1946ac92492d2347c6235b4d2611184 ) 2 ( ( 23:svn:entry:committed-rev 1:2 ) ( 24:svn:entry:committed-date 27:2026-11-24T04:33:39.493492Z ) ( 14:svn:entry:uuid 36:709bc996-b9ae-4bf5-b01b-066d8cc89755 ) ) ) ) ";

pub const NO_FILE: &[u8] =
    b"( failure ( ( 160013 42:File not found: revision 2, path '/nofile' 0: 0 ) ) ) ";
