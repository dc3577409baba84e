//! Edits that `svnserve` sent for updates and a switch, with tokens, texts and the order of entries as they are written
//! here; and one that is written by the protocol, of nodes of which one property of two differs.

pub const FRESH: &[u8] =
    b"( target-rev ( 3 ) ) ( open-root ( ( 3 ) 2:t0 ) ) ( change-dir-prop ( 2:t0 \
    23:svn:entry:committed-rev ( 1:3 ) ) ) ( change-dir-prop ( 2:t0 24:svn:entry:committed-date ( \
    27:2020-01-01T00:50:00.023757Z ) ) ) ( change-dir-prop ( 2:t0 21:svn:entry:last-author ( 5:carol ) \
    ) ) ( change-dir-prop ( 2:t0 14:svn:entry:uuid ( 36:6a1f0c3e-0000-4000-8000-0000000000a1 ) ) ) ( \
    add-dir ( 4:tags 2:t0 2:t1 ( ) ) ) ( change-dir-prop ( 2:t1 23:svn:entry:committed-rev ( 1:1 ) ) ) \
    ( change-dir-prop ( 2:t1 24:svn:entry:committed-date ( 27:2020-01-01T00:16:40.007919Z ) ) ) ( \
    change-dir-prop ( 2:t1 21:svn:entry:last-author ( 5:alice ) ) ) ( change-dir-prop ( 2:t1 \
    14:svn:entry:uuid ( 36:6a1f0c3e-0000-4000-8000-0000000000a1 ) ) ) ( close-dir ( 2:t1 ) ) ( add-dir \
    ( 5:trunk 2:t0 2:t2 ( ) ) ) ( change-dir-prop ( 2:t2 23:svn:entry:committed-rev ( 1:3 ) ) ) ( \
    change-dir-prop ( 2:t2 24:svn:entry:committed-date ( 27:2020-01-01T00:50:00.023757Z ) ) ) ( \
    change-dir-prop ( 2:t2 21:svn:entry:last-author ( 5:carol ) ) ) ( change-dir-prop ( 2:t2 \
    14:svn:entry:uuid ( 36:6a1f0c3e-0000-4000-8000-0000000000a1 ) ) ) ( add-file ( 12:trunk/README 2:t2 \
    2:t3 ( ) ) ) ( change-file-prop ( 2:t3 23:svn:entry:committed-rev ( 1:2 ) ) ) ( change-file-prop ( \
    2:t3 24:svn:entry:committed-date ( 27:2020-01-01T00:33:20.015838Z ) ) ) ( change-file-prop ( 2:t3 \
    21:svn:entry:last-author ( 3:bob ) ) ) ( change-file-prop ( 2:t3 14:svn:entry:uuid ( \
    36:6a1f0c3e-0000-4000-8000-0000000000a1 ) ) ) ( apply-textdelta ( 2:t3 ( ) ) ) ( textdelta-chunk ( \
    2:t3 4:SVN\0 ) ) ( textdelta-chunk ( 2:t3 18:\0\0\x0c\x01\x0c\x8chello again\n ) ) ( textdelta-end \
    ( 2:t3 ) ) ( close-file ( 2:t3 ( 32:90f4dd73d11e55a3d19b4bd8e4ad1bdb ) ) ) ( add-file ( 9:trunk/lib \
    2:t2 2:t4 ( ) ) ) ( change-file-prop ( 2:t4 23:svn:entry:committed-rev ( 1:3 ) ) ) ( \
    change-file-prop ( 2:t4 24:svn:entry:committed-date ( 27:2020-01-01T00:50:00.023757Z ) ) ) ( \
    change-file-prop ( 2:t4 21:svn:entry:last-author ( 5:carol ) ) ) ( change-file-prop ( 2:t4 \
    14:svn:entry:uuid ( 36:6a1f0c3e-0000-4000-8000-0000000000a1 ) ) ) ( apply-textdelta ( 2:t4 ( ) ) ) \
    ( textdelta-chunk ( 2:t4 4:SVN\0 ) ) ( textdelta-chunk ( 2:t4 17:\0\0\x0b\x01\x0b\x8bnow a file\n ) \
    ) ( textdelta-end ( 2:t4 ) ) ( close-file ( 2:t4 ( 32:b3eb1a8045bed57b2d54b64a1c10e265 ) ) ) ( \
    add-dir ( 9:trunk/new 2:t2 2:t5 ( ) ) ) ( change-dir-prop ( 2:t5 23:svn:entry:committed-rev ( 1:3 ) \
    ) ) ( change-dir-prop ( 2:t5 24:svn:entry:committed-date ( 27:2020-01-01T00:50:00.023757Z ) ) ) ( \
    change-dir-prop ( 2:t5 21:svn:entry:last-author ( 5:carol ) ) ) ( change-dir-prop ( 2:t5 \
    14:svn:entry:uuid ( 36:6a1f0c3e-0000-4000-8000-0000000000a1 ) ) ) ( change-dir-prop ( 2:t5 \
    10:custom:new ( 3:yes ) ) ) ( add-file ( 11:trunk/new/f 2:t5 2:t6 ( ) ) ) ( change-file-prop ( 2:t6 \
    23:svn:entry:committed-rev ( 1:3 ) ) ) ( change-file-prop ( 2:t6 24:svn:entry:committed-date ( \
    27:2020-01-01T00:50:00.023757Z ) ) ) ( change-file-prop ( 2:t6 21:svn:entry:last-author ( 5:carol ) \
    ) ) ( change-file-prop ( 2:t6 14:svn:entry:uuid ( 36:6a1f0c3e-0000-4000-8000-0000000000a1 ) ) ) ( \
    apply-textdelta ( 2:t6 ( ) ) ) ( textdelta-chunk ( 2:t6 4:SVN\0 ) ) ( textdelta-end ( 2:t6 ) ) ( \
    close-file ( 2:t6 ( 32:d41d8cd98f00b204e9800998ecf8427e ) ) ) ( close-dir ( 2:t5 ) ) ( close-dir ( \
    2:t2 ) ) ( close-dir ( 2:t0 ) ) ( close-edit ( ) ) ";

pub const FORWARD: &[u8] =
    b"( target-rev ( 3 ) ) ( open-root ( ( 1 ) 2:t0 ) ) ( change-dir-prop ( 2:t0 \
    23:svn:entry:committed-rev ( 1:3 ) ) ) ( change-dir-prop ( 2:t0 24:svn:entry:committed-date ( \
    27:2020-01-01T00:50:00.023757Z ) ) ) ( change-dir-prop ( 2:t0 21:svn:entry:last-author ( 5:carol ) \
    ) ) ( change-dir-prop ( 2:t0 14:svn:entry:uuid ( 36:6a1f0c3e-0000-4000-8000-0000000000a1 ) ) ) ( \
    open-dir ( 5:trunk 2:t0 2:t1 ( 1 ) ) ) ( change-dir-prop ( 2:t1 23:svn:entry:committed-rev ( 1:3 ) \
    ) ) ( change-dir-prop ( 2:t1 24:svn:entry:committed-date ( 27:2020-01-01T00:50:00.023757Z ) ) ) ( \
    change-dir-prop ( 2:t1 21:svn:entry:last-author ( 5:carol ) ) ) ( change-dir-prop ( 2:t1 \
    14:svn:entry:uuid ( 36:6a1f0c3e-0000-4000-8000-0000000000a1 ) ) ) ( open-file ( 12:trunk/README \
    2:t1 2:t2 ( 1 ) ) ) ( change-file-prop ( 2:t2 23:svn:entry:committed-rev ( 1:2 ) ) ) ( \
    change-file-prop ( 2:t2 24:svn:entry:committed-date ( 27:2020-01-01T00:33:20.015838Z ) ) ) ( \
    change-file-prop ( 2:t2 21:svn:entry:last-author ( 3:bob ) ) ) ( change-file-prop ( 2:t2 \
    14:svn:entry:uuid ( 36:6a1f0c3e-0000-4000-8000-0000000000a1 ) ) ) ( apply-textdelta ( 2:t2 ( ) ) ) \
    ( textdelta-chunk ( 2:t2 4:SVN\0 ) ) ( textdelta-chunk ( 2:t2 18:\0\0\x0c\x01\x0c\x8chello again\n \
    ) ) ( textdelta-end ( 2:t2 ) ) ( close-file ( 2:t2 ( 32:90f4dd73d11e55a3d19b4bd8e4ad1bdb ) ) ) ( \
    delete-entry ( 9:trunk/lib ( 1 ) 2:t1 ) ) ( add-file ( 9:trunk/lib 2:t1 2:t3 ( ) ) ) ( \
    change-file-prop ( 2:t3 23:svn:entry:committed-rev ( 1:3 ) ) ) ( change-file-prop ( 2:t3 \
    24:svn:entry:committed-date ( 27:2020-01-01T00:50:00.023757Z ) ) ) ( change-file-prop ( 2:t3 \
    21:svn:entry:last-author ( 5:carol ) ) ) ( change-file-prop ( 2:t3 14:svn:entry:uuid ( \
    36:6a1f0c3e-0000-4000-8000-0000000000a1 ) ) ) ( apply-textdelta ( 2:t3 ( ) ) ) ( textdelta-chunk ( \
    2:t3 4:SVN\0 ) ) ( textdelta-chunk ( 2:t3 17:\0\0\x0b\x01\x0b\x8bnow a file\n ) ) ( textdelta-end ( \
    2:t3 ) ) ( close-file ( 2:t3 ( 32:b3eb1a8045bed57b2d54b64a1c10e265 ) ) ) ( add-dir ( 9:trunk/new \
    2:t1 2:t4 ( ) ) ) ( change-dir-prop ( 2:t4 23:svn:entry:committed-rev ( 1:3 ) ) ) ( change-dir-prop \
    ( 2:t4 24:svn:entry:committed-date ( 27:2020-01-01T00:50:00.023757Z ) ) ) ( change-dir-prop ( 2:t4 \
    21:svn:entry:last-author ( 5:carol ) ) ) ( change-dir-prop ( 2:t4 14:svn:entry:uuid ( \
    36:6a1f0c3e-0000-4000-8000-0000000000a1 ) ) ) ( change-dir-prop ( 2:t4 10:custom:new ( 3:yes ) ) ) \
    ( add-file ( 11:trunk/new/f 2:t4 2:t5 ( ) ) ) ( change-file-prop ( 2:t5 23:svn:entry:committed-rev \
    ( 1:3 ) ) ) ( change-file-prop ( 2:t5 24:svn:entry:committed-date ( 27:2020-01-01T00:50:00.023757Z \
    ) ) ) ( change-file-prop ( 2:t5 21:svn:entry:last-author ( 5:carol ) ) ) ( change-file-prop ( 2:t5 \
    14:svn:entry:uuid ( 36:6a1f0c3e-0000-4000-8000-0000000000a1 ) ) ) ( apply-textdelta ( 2:t5 ( ) ) ) \
    ( textdelta-chunk ( 2:t5 4:SVN\0 ) ) ( textdelta-end ( 2:t5 ) ) ( close-file ( 2:t5 ( \
    32:d41d8cd98f00b204e9800998ecf8427e ) ) ) ( close-dir ( 2:t4 ) ) ( close-dir ( 2:t1 ) ) ( close-dir \
    ( 2:t0 ) ) ( close-edit ( ) ) ";

pub const BACK: &[u8] =
    b"( target-rev ( 1 ) ) ( open-root ( ( 3 ) 2:t0 ) ) ( change-dir-prop ( 2:t0 \
    23:svn:entry:committed-rev ( 1:1 ) ) ) ( change-dir-prop ( 2:t0 24:svn:entry:committed-date ( \
    27:2020-01-01T00:16:40.007919Z ) ) ) ( change-dir-prop ( 2:t0 21:svn:entry:last-author ( 5:alice ) \
    ) ) ( change-dir-prop ( 2:t0 14:svn:entry:uuid ( 36:6a1f0c3e-0000-4000-8000-0000000000a1 ) ) ) ( \
    open-dir ( 5:trunk 2:t0 2:t1 ( 3 ) ) ) ( change-dir-prop ( 2:t1 23:svn:entry:committed-rev ( 1:1 ) \
    ) ) ( change-dir-prop ( 2:t1 24:svn:entry:committed-date ( 27:2020-01-01T00:16:40.007919Z ) ) ) ( \
    change-dir-prop ( 2:t1 21:svn:entry:last-author ( 5:alice ) ) ) ( change-dir-prop ( 2:t1 \
    14:svn:entry:uuid ( 36:6a1f0c3e-0000-4000-8000-0000000000a1 ) ) ) ( open-file ( 12:trunk/README \
    2:t1 2:t2 ( 3 ) ) ) ( change-file-prop ( 2:t2 23:svn:entry:committed-rev ( 1:1 ) ) ) ( \
    change-file-prop ( 2:t2 24:svn:entry:committed-date ( 27:2020-01-01T00:16:40.007919Z ) ) ) ( \
    change-file-prop ( 2:t2 21:svn:entry:last-author ( 5:alice ) ) ) ( change-file-prop ( 2:t2 \
    14:svn:entry:uuid ( 36:6a1f0c3e-0000-4000-8000-0000000000a1 ) ) ) ( apply-textdelta ( 2:t2 ( ) ) ) \
    ( textdelta-chunk ( 2:t2 4:SVN\0 ) ) ( textdelta-chunk ( 2:t2 12:\0\0\x06\x01\x06\x86hello\n ) ) ( \
    textdelta-end ( 2:t2 ) ) ( close-file ( 2:t2 ( 32:b1946ac92492d2347c6235b4d2611184 ) ) ) ( \
    delete-entry ( 9:trunk/lib ( 3 ) 2:t1 ) ) ( add-dir ( 9:trunk/lib 2:t1 2:t3 ( ) ) ) ( \
    change-dir-prop ( 2:t3 23:svn:entry:committed-rev ( 1:1 ) ) ) ( change-dir-prop ( 2:t3 \
    24:svn:entry:committed-date ( 27:2020-01-01T00:16:40.007919Z ) ) ) ( change-dir-prop ( 2:t3 \
    21:svn:entry:last-author ( 5:alice ) ) ) ( change-dir-prop ( 2:t3 14:svn:entry:uuid ( \
    36:6a1f0c3e-0000-4000-8000-0000000000a1 ) ) ) ( add-file ( 13:trunk/lib/a.c 2:t3 2:t4 ( ) ) ) ( \
    change-file-prop ( 2:t4 23:svn:entry:committed-rev ( 1:1 ) ) ) ( change-file-prop ( 2:t4 \
    24:svn:entry:committed-date ( 27:2020-01-01T00:16:40.007919Z ) ) ) ( change-file-prop ( 2:t4 \
    21:svn:entry:last-author ( 5:alice ) ) ) ( change-file-prop ( 2:t4 14:svn:entry:uuid ( \
    36:6a1f0c3e-0000-4000-8000-0000000000a1 ) ) ) ( change-file-prop ( 2:t4 13:svn:eol-style ( 6:native \
    ) ) ) ( apply-textdelta ( 2:t4 ( ) ) ) ( textdelta-chunk ( 2:t4 4:SVN\0 ) ) ( textdelta-chunk ( \
    2:t4 13:\0\0\x07\x01\x07\x87int a;\n ) ) ( textdelta-end ( 2:t4 ) ) ( close-file ( 2:t4 ( \
    32:1ccb9ebc08e51c65b99fa5f74657100a ) ) ) ( close-dir ( 2:t3 ) ) ( delete-entry ( 9:trunk/new ( 3 ) \
    2:t1 ) ) ( close-dir ( 2:t1 ) ) ( close-dir ( 2:t0 ) ) ( close-edit ( ) ) ";

pub const ONE_FORWARD: &[u8] =
    b"( target-rev ( 2 ) ) ( open-root ( ( 1 ) 2:t0 ) ) ( change-dir-prop ( 2:t0 \
    23:svn:entry:committed-rev ( 1:2 ) ) ) ( change-dir-prop ( 2:t0 24:svn:entry:committed-date ( \
    27:2020-01-01T00:33:20.015838Z ) ) ) ( change-dir-prop ( 2:t0 21:svn:entry:last-author ( 3:bob ) ) \
    ) ( change-dir-prop ( 2:t0 14:svn:entry:uuid ( 36:6a1f0c3e-0000-4000-8000-0000000000a1 ) ) ) ( \
    open-dir ( 5:trunk 2:t0 2:t1 ( 1 ) ) ) ( change-dir-prop ( 2:t1 23:svn:entry:committed-rev ( 1:2 ) \
    ) ) ( change-dir-prop ( 2:t1 24:svn:entry:committed-date ( 27:2020-01-01T00:33:20.015838Z ) ) ) ( \
    change-dir-prop ( 2:t1 21:svn:entry:last-author ( 3:bob ) ) ) ( change-dir-prop ( 2:t1 \
    14:svn:entry:uuid ( 36:6a1f0c3e-0000-4000-8000-0000000000a1 ) ) ) ( change-dir-prop ( 2:t1 \
    10:custom:dir ( 4:deep ) ) ) ( open-file ( 12:trunk/README 2:t1 2:t2 ( 1 ) ) ) ( change-file-prop ( \
    2:t2 23:svn:entry:committed-rev ( 1:2 ) ) ) ( change-file-prop ( 2:t2 24:svn:entry:committed-date ( \
    27:2020-01-01T00:33:20.015838Z ) ) ) ( change-file-prop ( 2:t2 21:svn:entry:last-author ( 3:bob ) ) \
    ) ( change-file-prop ( 2:t2 14:svn:entry:uuid ( 36:6a1f0c3e-0000-4000-8000-0000000000a1 ) ) ) ( \
    apply-textdelta ( 2:t2 ( ) ) ) ( textdelta-chunk ( 2:t2 4:SVN\0 ) ) ( textdelta-chunk ( 2:t2 \
    18:\0\0\x0c\x01\x0c\x8chello again\n ) ) ( textdelta-end ( 2:t2 ) ) ( close-file ( 2:t2 ( \
    32:90f4dd73d11e55a3d19b4bd8e4ad1bdb ) ) ) ( open-dir ( 9:trunk/lib 2:t1 2:t3 ( 1 ) ) ) ( \
    change-dir-prop ( 2:t3 23:svn:entry:committed-rev ( 1:2 ) ) ) ( change-dir-prop ( 2:t3 \
    24:svn:entry:committed-date ( 27:2020-01-01T00:33:20.015838Z ) ) ) ( change-dir-prop ( 2:t3 \
    21:svn:entry:last-author ( 3:bob ) ) ) ( change-dir-prop ( 2:t3 14:svn:entry:uuid ( \
    36:6a1f0c3e-0000-4000-8000-0000000000a1 ) ) ) ( delete-entry ( 13:trunk/lib/a.c ( 1 ) 2:t3 ) ) ( \
    close-dir ( 2:t3 ) ) ( close-dir ( 2:t1 ) ) ( close-dir ( 2:t0 ) ) ( close-edit ( ) ) ";

pub const SAME: &[u8] =
    b"( target-rev ( 3 ) ) ( open-root ( ( 3 ) 2:t0 ) ) ( change-dir-prop ( 2:t0 \
    23:svn:entry:committed-rev ( 1:3 ) ) ) ( change-dir-prop ( 2:t0 24:svn:entry:committed-date ( \
    27:2020-01-01T00:50:00.023757Z ) ) ) ( change-dir-prop ( 2:t0 21:svn:entry:last-author ( 5:carol ) \
    ) ) ( change-dir-prop ( 2:t0 14:svn:entry:uuid ( 36:6a1f0c3e-0000-4000-8000-0000000000a1 ) ) ) ( \
    close-dir ( 2:t0 ) ) ( close-edit ( ) ) ";

pub const SWITCH: &[u8] =
    b"( target-rev ( 3 ) ) ( open-root ( ( 1 ) 2:t0 ) ) ( change-dir-prop ( 2:t0 \
    23:svn:entry:committed-rev ( 1:3 ) ) ) ( change-dir-prop ( 2:t0 24:svn:entry:committed-date ( \
    27:2020-01-01T00:50:00.023757Z ) ) ) ( change-dir-prop ( 2:t0 21:svn:entry:last-author ( 5:carol ) \
    ) ) ( change-dir-prop ( 2:t0 14:svn:entry:uuid ( 36:6a1f0c3e-0000-4000-8000-0000000000a1 ) ) ) ( \
    add-file ( 6:README 2:t0 2:t1 ( ) ) ) ( change-file-prop ( 2:t1 23:svn:entry:committed-rev ( 1:2 ) \
    ) ) ( change-file-prop ( 2:t1 24:svn:entry:committed-date ( 27:2020-01-01T00:33:20.015838Z ) ) ) ( \
    change-file-prop ( 2:t1 21:svn:entry:last-author ( 3:bob ) ) ) ( change-file-prop ( 2:t1 \
    14:svn:entry:uuid ( 36:6a1f0c3e-0000-4000-8000-0000000000a1 ) ) ) ( apply-textdelta ( 2:t1 ( ) ) ) \
    ( textdelta-chunk ( 2:t1 4:SVN\0 ) ) ( textdelta-chunk ( 2:t1 18:\0\0\x0c\x01\x0c\x8chello again\n \
    ) ) ( textdelta-end ( 2:t1 ) ) ( close-file ( 2:t1 ( 32:90f4dd73d11e55a3d19b4bd8e4ad1bdb ) ) ) ( \
    add-file ( 3:lib 2:t0 2:t2 ( ) ) ) ( change-file-prop ( 2:t2 23:svn:entry:committed-rev ( 1:3 ) ) ) \
    ( change-file-prop ( 2:t2 24:svn:entry:committed-date ( 27:2020-01-01T00:50:00.023757Z ) ) ) ( \
    change-file-prop ( 2:t2 21:svn:entry:last-author ( 5:carol ) ) ) ( change-file-prop ( 2:t2 \
    14:svn:entry:uuid ( 36:6a1f0c3e-0000-4000-8000-0000000000a1 ) ) ) ( apply-textdelta ( 2:t2 ( ) ) ) \
    ( textdelta-chunk ( 2:t2 4:SVN\0 ) ) ( textdelta-chunk ( 2:t2 17:\0\0\x0b\x01\x0b\x8bnow a file\n ) \
    ) ( textdelta-end ( 2:t2 ) ) ( close-file ( 2:t2 ( 32:b3eb1a8045bed57b2d54b64a1c10e265 ) ) ) ( \
    add-dir ( 3:new 2:t0 2:t3 ( ) ) ) ( change-dir-prop ( 2:t3 23:svn:entry:committed-rev ( 1:3 ) ) ) ( \
    change-dir-prop ( 2:t3 24:svn:entry:committed-date ( 27:2020-01-01T00:50:00.023757Z ) ) ) ( \
    change-dir-prop ( 2:t3 21:svn:entry:last-author ( 5:carol ) ) ) ( change-dir-prop ( 2:t3 \
    14:svn:entry:uuid ( 36:6a1f0c3e-0000-4000-8000-0000000000a1 ) ) ) ( change-dir-prop ( 2:t3 \
    10:custom:new ( 3:yes ) ) ) ( add-file ( 5:new/f 2:t3 2:t4 ( ) ) ) ( change-file-prop ( 2:t4 \
    23:svn:entry:committed-rev ( 1:3 ) ) ) ( change-file-prop ( 2:t4 24:svn:entry:committed-date ( \
    27:2020-01-01T00:50:00.023757Z ) ) ) ( change-file-prop ( 2:t4 21:svn:entry:last-author ( 5:carol ) \
    ) ) ( change-file-prop ( 2:t4 14:svn:entry:uuid ( 36:6a1f0c3e-0000-4000-8000-0000000000a1 ) ) ) ( \
    apply-textdelta ( 2:t4 ( ) ) ) ( textdelta-chunk ( 2:t4 4:SVN\0 ) ) ( textdelta-end ( 2:t4 ) ) ( \
    close-file ( 2:t4 ( 32:d41d8cd98f00b204e9800998ecf8427e ) ) ) ( close-dir ( 2:t3 ) ) ( close-dir ( \
    2:t0 ) ) ( close-edit ( ) ) ";

pub const FILES: &[u8] =
    b"( target-rev ( 3 ) ) ( open-root ( ( 3 ) 2:t0 ) ) ( change-dir-prop ( 2:t0 \
    23:svn:entry:committed-rev ( 1:3 ) ) ) ( change-dir-prop ( 2:t0 24:svn:entry:committed-date ( \
    27:2020-01-01T00:50:00.023757Z ) ) ) ( change-dir-prop ( 2:t0 21:svn:entry:last-author ( 5:carol ) \
    ) ) ( change-dir-prop ( 2:t0 14:svn:entry:uuid ( 36:6a1f0c3e-0000-4000-8000-0000000000a1 ) ) ) ( \
    add-file ( 6:README 2:t0 2:t1 ( ) ) ) ( change-file-prop ( 2:t1 23:svn:entry:committed-rev ( 1:2 ) \
    ) ) ( change-file-prop ( 2:t1 24:svn:entry:committed-date ( 27:2020-01-01T00:33:20.015838Z ) ) ) ( \
    change-file-prop ( 2:t1 21:svn:entry:last-author ( 3:bob ) ) ) ( change-file-prop ( 2:t1 \
    14:svn:entry:uuid ( 36:6a1f0c3e-0000-4000-8000-0000000000a1 ) ) ) ( apply-textdelta ( 2:t1 ( ) ) ) \
    ( textdelta-chunk ( 2:t1 4:SVN\0 ) ) ( textdelta-chunk ( 2:t1 18:\0\0\x0c\x01\x0c\x8chello again\n \
    ) ) ( textdelta-end ( 2:t1 ) ) ( close-file ( 2:t1 ( 32:90f4dd73d11e55a3d19b4bd8e4ad1bdb ) ) ) ( \
    add-file ( 3:lib 2:t0 2:t2 ( ) ) ) ( change-file-prop ( 2:t2 23:svn:entry:committed-rev ( 1:3 ) ) ) \
    ( change-file-prop ( 2:t2 24:svn:entry:committed-date ( 27:2020-01-01T00:50:00.023757Z ) ) ) ( \
    change-file-prop ( 2:t2 21:svn:entry:last-author ( 5:carol ) ) ) ( change-file-prop ( 2:t2 \
    14:svn:entry:uuid ( 36:6a1f0c3e-0000-4000-8000-0000000000a1 ) ) ) ( apply-textdelta ( 2:t2 ( ) ) ) \
    ( textdelta-chunk ( 2:t2 4:SVN\0 ) ) ( textdelta-chunk ( 2:t2 17:\0\0\x0b\x01\x0b\x8bnow a file\n ) \
    ) ( textdelta-end ( 2:t2 ) ) ( close-file ( 2:t2 ( 32:b3eb1a8045bed57b2d54b64a1c10e265 ) ) ) ( \
    close-dir ( 2:t0 ) ) ( close-edit ( ) ) ";

pub const ONE_PROPERTY: &[u8] =
    b"( target-rev ( 2 ) ) ( open-root ( ( 1 ) 2:t0 ) ) ( open-dir ( 3:dir 2:t0 2:t1 ( 1 ) ) ) ( \
    change-dir-prop ( 2:t1 23:svn:entry:committed-rev ( 1:2 ) ) ) ( change-dir-prop ( 2:t1 \
    24:svn:entry:committed-date ( 27:2020-01-01T00:33:20.015838Z ) ) ) ( change-dir-prop ( 2:t1 \
    21:svn:entry:last-author ( 3:bob ) ) ) ( change-dir-prop ( 2:t1 14:svn:entry:uuid ( \
    36:6a1f0c3e-0000-4000-8000-0000000000a1 ) ) ) ( change-dir-prop ( 2:t1 4:gone ( ) ) ) ( \
    change-dir-prop ( 2:t1 6:second ( 3:new ) ) ) ( close-dir ( 2:t1 ) ) ( open-file ( 4:file 2:t0 2:t2 \
    ( 1 ) ) ) ( change-file-prop ( 2:t2 23:svn:entry:committed-rev ( 1:2 ) ) ) ( change-file-prop ( \
    2:t2 24:svn:entry:committed-date ( 27:2020-01-01T00:33:20.015838Z ) ) ) ( change-file-prop ( 2:t2 \
    21:svn:entry:last-author ( 3:bob ) ) ) ( change-file-prop ( 2:t2 14:svn:entry:uuid ( \
    36:6a1f0c3e-0000-4000-8000-0000000000a1 ) ) ) ( change-file-prop ( 2:t2 4:gone ( ) ) ) ( \
    change-file-prop ( 2:t2 6:second ( 3:new ) ) ) ( close-file ( 2:t2 ( ) ) ) ( delete-entry ( 5:other \
    ( 1 ) 2:t0 ) ) ( add-file ( 5:other 2:t0 2:t3 ( ) ) ) ( change-file-prop ( 2:t3 \
    23:svn:entry:committed-rev ( 1:2 ) ) ) ( change-file-prop ( 2:t3 24:svn:entry:committed-date ( \
    27:2020-01-01T00:33:20.015838Z ) ) ) ( change-file-prop ( 2:t3 21:svn:entry:last-author ( 3:bob ) ) \
    ) ( change-file-prop ( 2:t3 14:svn:entry:uuid ( 36:6a1f0c3e-0000-4000-8000-0000000000a1 ) ) ) ( \
    change-file-prop ( 2:t3 5:first ( 4:same ) ) ) ( change-file-prop ( 2:t3 6:second ( 3:new ) ) ) ( \
    apply-textdelta ( 2:t3 ( ) ) ) ( textdelta-chunk ( 2:t3 4:SVN\0 ) ) ( textdelta-end ( 2:t3 ) ) ( \
    close-file ( 2:t3 ( 32:d41d8cd98f00b204e9800998ecf8427e ) ) ) ( close-dir ( 2:t0 ) ) ( close-edit ( \
    ) ) ";
