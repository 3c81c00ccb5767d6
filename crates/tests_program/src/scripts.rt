// Whole scripts over a bench in memory, and what is told of them. A row is the words, the script, and the text.
use crate::runs::{bench_with, done};
use datalinks::Status;
use std::alloc::Global;

pub type Row = (&'static [u8], &'static [u8], &'static [u8]);

/// A table whose links forbid that their files are renamed, deleted, written and changed; one whose files are read by token alone; and one
/// whose files stay the user's own.
fn linking() -> [Row; 6] {
    [
        (
            b"run",
            b"@ann create /a one\n\
              A: CREATE TABLE m (id INTEGER PRIMARY KEY, f DATALINK LINKTYPE URL FILE LINK CONTROL INTEGRITY ALL READ PERMISSION FS WRITE PERMISSION BLOCKED RECOVERY NO ON UNLINK RESTORE)\n\
              A: INSERT INTO m VALUES (1, DLVALUE('http://fs1/a'))\n\
              @ann delete /a\n",
            b"1: ok\n2: ok\n3: ok 1\n4: refused linked /a 1-2-1 delete\n",
        ),
        (
            b"run",
            b"A: CREATE TABLE m (id INTEGER PRIMARY KEY, f DATALINK LINKTYPE URL FILE LINK CONTROL INTEGRITY ALL READ PERMISSION FS WRITE PERMISSION BLOCKED RECOVERY NO ON UNLINK RESTORE)\n\
              A: INSERT INTO m VALUES (1, DLVALUE('http://fs1/x'))\n\
              A: SELECT COUNT(*) FROM m\n",
            b"1: ok\n2: refused no file /x\n3: rows 1\n3| 0\n",
        ),
        (
            b"run",
            b"@ann create /b x\n\
              A: CREATE TABLE m (id INTEGER PRIMARY KEY, f DATALINK LINKTYPE URL FILE LINK CONTROL INTEGRITY ALL READ PERMISSION FS WRITE PERMISSION BLOCKED RECOVERY NO ON UNLINK RESTORE)\n\
              A: INSERT INTO m VALUES (1, DLVALUE('http://FS1/a/../b', 'URL', 'note'))\n\
              A: SELECT DLURLPATH(f), DLURLSERVER(f), DLURLSCHEME(f), DLCOMMENT(f), DLURLCOMPLETE(f), DLLINKTYPE(f) FROM m\n",
            b"1: ok\n2: ok\n3: ok 1\n4: rows 1\n4| '/b' | 'FS1' | 'HTTP' | 'note' | 'http://fs1/b' | 'URL'\n",
        ),
        (
            b"run",
            b"@ann create /a one\n\
              @ann chmod /a off\n\
              A: CREATE TABLE m (id INTEGER PRIMARY KEY, f DATALINK LINKTYPE URL FILE LINK CONTROL INTEGRITY ALL READ PERMISSION DB WRITE PERMISSION BLOCKED RECOVERY NO ON UNLINK RESTORE)\n\
              A: INSERT INTO m VALUES (1, DLVALUE('http://fs1/a'))\n\
              @ann chmod /a on\n\
              @ann list\n\
              A: DELETE FROM m\n\
              @ann list\n\
              @ann write /a two\n\
              @ann chmod /a on\n\
              @ann write /a two\n",
            b"1: ok\n2: ok\n3: ok\n4: ok 1\n5: refused linked /a 1-2-1 chmod\n6: ok files 1\n6| /a dlfm off 3\n7: ok 1\n8: ok files 1\n8| /a ann off 3\n9: refused read only /a\n10: ok\n11: ok\n",
        ),
        (
            b"run",
            b"@ann create /a one\n\
              A: CREATE TABLE m (id INTEGER PRIMARY KEY, f DATALINK LINKTYPE URL FILE LINK CONTROL MODE DB2OPTIONS)\n\
              A: INSERT INTO m VALUES (1, DLVALUE('http://fs1/a')), (2, DLVALUE('http://fs1/a'))\n\
              A: INSERT INTO m VALUES (1, DLVALUE('http://fs1/a'))\n\
              A: INSERT INTO m VALUES (1, NULL)\n\
              A: INSERT INTO m VALUES (2, DLVALUE('http://fs1/a'))\n\
              @ann write /a two\n\
              A: UPDATE m SET f = DLVALUE('file://fs1/a')\n\
              @ann delete /a\n",
            b"1: ok\n2: ok\n3: refused already linked /a 1-2-1\n4: ok 1\n5: refused duplicate key 2\n6: refused already linked /a 1-3-1\n7: ok\n8: ok 1\n9: refused linked /a 1-3-1 delete\n",
        ),
        (
            b"run",
            b"A: CREATE TABLE m (id INTEGER PRIMARY KEY, f DATALINK LINKTYPE URL FILE LINK CONTROL INTEGRITY ALL READ PERMISSION FS WRITE PERMISSION BLOCKED RECOVERY NO ON UNLINK RESTORE)\n\
              A: INSERT INTO m VALUES (1, DLVALUE('a'))\n\
              A: INSERT INTO m VALUES (1, DLVALUE('ftp://fs1/a'))\n\
              A: INSERT INTO m VALUES (1, DLVALUE('http://other/a'))\n\
              A: INSERT INTO m VALUES (1, DLVALUE('http://fs1/a?x'))\n\
              A: INSERT INTO m VALUES (1, DLVALUE('http://fs1/'))\n\
              A: INSERT INTO m VALUES (1, DLVALUE('http://fs1/a', 'FILE'))\n\
              A: INSERT INTO m VALUES (1, DLVALUE('http://fs1:80/a'))\n",
            b"1: ok\n2: refused bad link 1\n3: refused bad link 2\n4: refused bad link 3\n5: refused bad link 4\n6: refused bad link 5\n7: refused bad link 6\n8: refused no file /a\n",
        ),
    ]
}

/// Two transactions and one file; a file that is deleted between its claim and the commit; the vote, the decision and the Finish as steps
/// of their own; and a conflict.
fn overlapping() -> [Row; 4] {
    [
        (
            b"run",
            b"@ann create /a one\n\
              A: CREATE TABLE m (id INTEGER PRIMARY KEY, f DATALINK LINKTYPE URL FILE LINK CONTROL INTEGRITY ALL READ PERMISSION FS WRITE PERMISSION BLOCKED RECOVERY NO ON UNLINK RESTORE)\n\
              A: BEGIN\n\
              B: BEGIN\n\
              A: INSERT INTO m VALUES (1, DLVALUE('http://fs1/a'))\n\
              B: INSERT INTO m VALUES (2, DLVALUE('http://fs1/a'))\n\
              A: ROLLBACK\n\
              B: INSERT INTO m VALUES (2, DLVALUE('http://fs1/a'))\n\
              B: COMMIT\n\
              @ann rename /a /b\n",
            b"1: ok\n2: ok\n3: ok 1-2\n4: ok 1-3\n5: ok 1\n6: refused busy /a 1-2\n7: ok\n8: ok 1\n9: ok commit 2\n10: refused linked /a 1-3-1 rename\n",
        ),
        (
            b"run",
            b"@ann create /a one\n\
              A: CREATE TABLE m (id INTEGER PRIMARY KEY, f DATALINK LINKTYPE URL FILE LINK CONTROL INTEGRITY ALL READ PERMISSION FS WRITE PERMISSION BLOCKED RECOVERY NO ON UNLINK RESTORE)\n\
              A: BEGIN\n\
              A: INSERT INTO m VALUES (1, DLVALUE('http://fs1/a'))\n\
              @ann delete /a\n\
              A: COMMIT\n\
              @ann create /a two\n\
              A: COMMIT\n",
            b"1: ok\n2: ok\n3: ok 1-2\n4: ok 1\n5: ok\n6: refused no file /a\n7: ok\n8: ok commit 2\n",
        ),
        (
            b"run",
            b"@ann create /a one\n\
              A: CREATE TABLE m (id INTEGER PRIMARY KEY, f DATALINK LINKTYPE URL FILE LINK CONTROL INTEGRITY ALL READ PERMISSION FS WRITE PERMISSION BLOCKED RECOVERY NO ON UNLINK RESTORE)\n\
              A: BEGIN\n\
              A: INSERT INTO m VALUES (1, DLVALUE('http://fs1/a'))\n\
              A: !prepare\n\
              @ann rename /a /b\n\
              A: !decide\n\
              A: !finish\n\
              @ann list\n",
            b"1: ok\n2: ok\n3: ok 1-2\n4: ok 1\n5: ok\n6: refused linked /a 1-2-1 rename\n7: ok commit 2\n8: ok\n9: ok files 1\n9| /a ann off 3\n",
        ),
        (
            b"run",
            b"A: CREATE TABLE t (x INTEGER)\n\
              A: CREATE TABLE u (x INTEGER)\n\
              A: BEGIN\n\
              A: SELECT COUNT(*) FROM t\n\
              B: INSERT INTO t VALUES (7)\n\
              A: INSERT INTO u VALUES (1)\n\
              A: COMMIT\n\
              A: ROLLBACK\n",
            b"1: ok\n2: ok\n3: ok 1-3\n4: rows 1\n4| 0\n5: ok 1\n6: ok 1\n7: refused conflict t 1 3\n8: refused no transaction\n",
        ),
    ]
}

/// Commands on files, statements alone, bad lines, and what is not built.
fn plain() -> [Row; 4] {
    [
        (
            b"run",
            b"@ann create /a\n@ann create /a x\n@bob write /a y\n@ann rename /a /a\n@ann read /a\n@bob read /q\n",
            b"1: ok\n2: refused exists /a\n3: refused not owner /a ann\n4: refused exists /a\n5: bytes 0\n5| \n6: refused no file /q\n",
        ),
        (
            b"run",
            b"A: CREATE TABLE t (x INTEGER)\nA: INSERT INTO t VALUES (1), (9223372036854775807)\nA: UPDATE t SET x = x + 1\nA: SELECT x FROM t\nA: SELECT SUM(x) FROM t WHERE x < 0\n",
            b"1: ok\n2: ok 2\n3: refused overflow\n4: rows 2\n4| 1\n4| 9223372036854775807\n5: rows 1\n5| NULL\n",
        ),
        (
            b"run",
            b"A: SELEC 1\nA: SELECT x FROM\nA: SELECT 'x\n@ann creat /a\nA: INSERT INTO t VALUES (9223372036854775808)\nA: COMMIT\n\nA: DROP TABLE t;\n",
            b"1: refused syntax 4\n2: refused syntax 17\n3: refused bad line 11\n4: refused bad line 6\n5: refused bad line 26\n6: refused no transaction\n8: refused no table t\n",
        ),
        (
            b"run",
            b"! archive\n! crash both\n! backup\nA: CREATE TABLE m (f DATALINK LINKTYPE URL FILE LINK CONTROL INTEGRITY ALL READ PERMISSION DB WRITE PERMISSION BLOCKED RECOVERY YES ON UNLINK DELETE)\n@ann read $A\n",
            b"1: ok archived 0\n2: refused not built\n3: ok backup 1\n4: ok\n5: refused no value A\n",
        ),
    ]
}

/// A token that is good up to its second, and no token of another link on the same path, by the lines that move the moment on; and the
/// moment past the greatest at which a run begins, also within a transaction, and behind a line that is none.
fn clock() -> [Row; 2] {
    [
        (
            b"run --now 100 --life 60",
            b"@ann create /a one\n\
              A: CREATE TABLE m (id INTEGER PRIMARY KEY, f DATALINK LINKTYPE URL FILE LINK CONTROL INTEGRITY ALL READ PERMISSION DB WRITE PERMISSION BLOCKED RECOVERY NO ON UNLINK RESTORE)\n\
              A: INSERT INTO m VALUES (1, DLVALUE('http://fs1/a'))\n\
              @bob read /a\n\
              A: SELECT DLURLPATH(f) FROM m\n\
              @bob read $A\n\
              ! tick 60\n\
              @bob read $A\n\
              ! tick 1\n\
              @bob read $A\n\
              A: DELETE FROM m\n\
              A: INSERT INTO m VALUES (1, DLVALUE('http://fs1/a'))\n\
              @bob read $A\n\
              @bob read $B\n",
            b"1: ok\n2: ok\n3: ok 1\n4: refused linked /a 1-2-1 no token\n5: rows 1\n5| '/160.7b57fb557152e2fec9555e464dc197b6;a'\n\
              6: bytes 3\n6| one\n7: ok\n8: bytes 3\n8| one\n9: ok\n10: refused linked /a 1-2-1 expired 160\n11: ok 1\n12: ok 1\n\
              13: refused linked /a 1-5-1 wrong token\n14: refused no value B\n",
        ),
        (
            b"run --now 9007199254740992 --life 1",
            b"@ann create /a one\n\
              A: CREATE TABLE m (id INTEGER PRIMARY KEY, f DATALINK LINKTYPE URL FILE LINK CONTROL INTEGRITY ALL READ PERMISSION DB WRITE PERMISSION BLOCKED RECOVERY NO ON UNLINK RESTORE)\n\
              A: INSERT INTO m VALUES (1, DLVALUE('http://fs1/a'))\n\
              A: SELECT DLURLPATH(f) FROM m\n\
              ! tick 1000000001\n\
              ! tick 0\n\
              ! tick 1\n\
              @bob read $A\n\
              A: BEGIN\n\
              ! tick 1000000000\n\
              @bob read $A\n\
              A: SELECT DLURLPATH(f) FROM m\n\
              @bob read $A\n\
              A: ROLLBACK\n",
            b"1: ok\n2: ok\n3: ok 1\n4: rows 1\n4| '/9007199254740993.8c5d4472b3957f914aaa4d7abf843d5d;a'\n5: refused bad line 8\n6: ok\n7: ok\n\
              8: bytes 3\n8| one\n9: ok 1-4\n10: ok\n11: refused linked /a 1-2-1 expired 9007199254740993\n12: rows 1\n\
              12| '/9007200254740994.52d5f8f1c37c705a31b8236df5d6c689;a'\n13: bytes 3\n13| one\n14: ok\n",
        ),
    ]
}

/// Two transactions and one file: both take it; one takes what the other gives, in each phase of that one; both give it; one takes it and
/// lets it go again; and one drops the table that took it.
fn orders() -> [Row; 5] {
    [
        (
            b"run",
            b"@ann create /a one\n\
              @ann create /b two\n\
              A: CREATE TABLE m (id INTEGER PRIMARY KEY, f DATALINK LINKTYPE URL FILE LINK CONTROL INTEGRITY ALL READ PERMISSION FS WRITE PERMISSION BLOCKED RECOVERY NO ON UNLINK RESTORE)\n\
              A: CREATE TABLE n (id INTEGER PRIMARY KEY, f DATALINK LINKTYPE URL FILE LINK CONTROL INTEGRITY ALL READ PERMISSION FS WRITE PERMISSION BLOCKED RECOVERY NO ON UNLINK RESTORE)\n\
              A: BEGIN\n\
              B: BEGIN\n\
              A: INSERT INTO m VALUES (1, DLVALUE('http://fs1/a'))\n\
              B: INSERT INTO n VALUES (1, DLVALUE('http://fs1/a'))\n\
              B: INSERT INTO n VALUES (1, DLVALUE('http://fs1/b')), (2, DLVALUE('http://fs1/b'))\n\
              B: INSERT INTO n VALUES (1, DLVALUE('http://fs1/b')), (2, DLVALUE('http://fs1/a'))\n\
              A: COMMIT\n\
              B: INSERT INTO n VALUES (1, DLVALUE('http://fs1/a'))\n\
              B: INSERT INTO m VALUES (2, DLVALUE('http://fs1/b'))\n\
              B: INSERT INTO n VALUES (1, DLVALUE('http://fs1/b'))\n\
              B: COMMIT\n\
              B: COMMIT\n\
              B: SELECT COUNT(*) FROM n\n",
            b"1: ok\n2: ok\n3: ok\n4: ok\n5: ok 1-3\n6: ok 1-4\n7: ok 1\n8: refused busy /a 1-3\n9: refused already linked /b 1-4-1\n\
              10: refused busy /a 1-3\n11: ok commit 3\n12: refused already linked /a 1-3-1\n13: refused conflict m 1 3\n\
              14: refused conflict m 1 3\n15: ok\n16: refused no transaction\n17: rows 1\n17| 0\n",
        ),
        (
            b"run",
            b"@ann create /a one\n\
              @ann create /b two\n\
              A: CREATE TABLE m (id INTEGER PRIMARY KEY, f DATALINK LINKTYPE URL FILE LINK CONTROL INTEGRITY ALL READ PERMISSION FS WRITE PERMISSION BLOCKED RECOVERY NO ON UNLINK RESTORE)\n\
              A: CREATE TABLE n (id INTEGER PRIMARY KEY, f DATALINK LINKTYPE URL FILE LINK CONTROL INTEGRITY ALL READ PERMISSION FS WRITE PERMISSION BLOCKED RECOVERY NO ON UNLINK RESTORE)\n\
              A: INSERT INTO m VALUES (1, DLVALUE('http://fs1/a'))\n\
              A: BEGIN\n\
              B: BEGIN\n\
              A: DELETE FROM m\n\
              B: INSERT INTO n VALUES (1, DLVALUE('http://fs1/a'))\n\
              A: !prepare\n\
              B: INSERT INTO n VALUES (1, DLVALUE('http://fs1/a'))\n\
              A: !decide\n\
              B: INSERT INTO n VALUES (1, DLVALUE('http://fs1/a'))\n\
              A: !finish\n\
              @ann list\n\
              B: INSERT INTO n VALUES (1, DLVALUE('http://fs1/a'))\n\
              B: COMMIT\n\
              @ann delete /a\n\
              @ann list\n",
            b"1: ok\n2: ok\n3: ok\n4: ok\n5: ok 1\n6: ok 1-4\n7: ok 1-5\n8: ok 1\n9: refused already linked /a 1-3-1\n10: ok\n\
              11: refused already linked /a 1-3-1\n12: ok commit 4\n13: refused busy /a 1-4\n14: ok\n15: ok files 2\n15| /a ann on 3\n\
              15| /b ann on 3\n16: ok 1\n17: ok commit 5\n18: refused linked /a 1-5-1 delete\n19: ok files 2\n19| /a ann off 3\n\
              19| /b ann on 3\n",
        ),
        (
            b"run",
            b"@ann create /a one\n\
              @ann create /b two\n\
              A: CREATE TABLE m (id INTEGER PRIMARY KEY, f DATALINK LINKTYPE URL FILE LINK CONTROL INTEGRITY ALL READ PERMISSION FS WRITE PERMISSION BLOCKED RECOVERY NO ON UNLINK RESTORE)\n\
              A: CREATE TABLE n (id INTEGER PRIMARY KEY, f DATALINK LINKTYPE URL FILE LINK CONTROL INTEGRITY ALL READ PERMISSION FS WRITE PERMISSION BLOCKED RECOVERY NO ON UNLINK RESTORE)\n\
              A: INSERT INTO m VALUES (1, DLVALUE('http://fs1/a'))\n\
              A: BEGIN\n\
              B: BEGIN\n\
              C: BEGIN\n\
              A: DELETE FROM m\n\
              B: DELETE FROM m\n\
              A: ROLLBACK\n\
              B: DELETE FROM m\n\
              C: DELETE FROM m WHERE id = 2\n\
              B: COMMIT\n\
              C: DELETE FROM m\n\
              C: ROLLBACK\n\
              C: DELETE FROM m\n",
            b"1: ok\n2: ok\n3: ok\n4: ok\n5: ok 1\n6: ok 1-4\n7: ok 1-5\n8: ok 1-6\n9: ok 1\n10: refused busy /a 1-4\n11: ok\n12: ok 1\n\
              13: ok 0\n14: ok commit 4\n15: refused conflict m 3 4\n16: ok\n17: ok 0\n",
        ),
        (
            b"run",
            b"@ann create /a one\n\
              @ann create /b two\n\
              A: CREATE TABLE m (id INTEGER PRIMARY KEY, f DATALINK LINKTYPE URL FILE LINK CONTROL INTEGRITY ALL READ PERMISSION FS WRITE PERMISSION BLOCKED RECOVERY NO ON UNLINK RESTORE)\n\
              A: CREATE TABLE n (id INTEGER PRIMARY KEY, f DATALINK LINKTYPE URL FILE LINK CONTROL INTEGRITY ALL READ PERMISSION FS WRITE PERMISSION BLOCKED RECOVERY NO ON UNLINK RESTORE)\n\
              A: BEGIN\n\
              A: INSERT INTO m VALUES (1, DLVALUE('http://fs1/a'))\n\
              A: DELETE FROM m\n\
              B: INSERT INTO n VALUES (1, DLVALUE('http://fs1/a'))\n\
              A: INSERT INTO m VALUES (1, DLVALUE('http://fs1/b'))\n\
              A: UPDATE m SET f = DLVALUE('file://fs1/b')\n\
              A: UPDATE m SET f = DLVALUE('http://fs1/a')\n\
              A: COMMIT\n\
              @ann delete /b\n\
              @ann delete /a\n\
              A: SELECT id, f FROM m\n",
            b"1: ok\n2: ok\n3: ok\n4: ok\n5: ok 1-3\n6: ok 1\n7: ok 1\n8: ok 1\n9: ok 1\n10: ok 1\n11: refused already linked /a 1-4-1\n\
              12: ok commit 4\n13: refused linked /b 1-3-2 delete\n14: refused linked /a 1-4-1 delete\n15: rows 1\n15| 1 | <file://fs1/b>\n",
        ),
        (
            b"run",
            b"@ann create /a one\n\
              @ann create /b two\n\
              A: CREATE TABLE m (id INTEGER PRIMARY KEY, f DATALINK LINKTYPE URL FILE LINK CONTROL INTEGRITY ALL READ PERMISSION FS WRITE PERMISSION BLOCKED RECOVERY NO ON UNLINK RESTORE)\n\
              A: CREATE TABLE n (id INTEGER PRIMARY KEY, f DATALINK LINKTYPE URL FILE LINK CONTROL INTEGRITY ALL READ PERMISSION FS WRITE PERMISSION BLOCKED RECOVERY NO ON UNLINK RESTORE)\n\
              A: BEGIN\n\
              A: INSERT INTO m VALUES (1, DLVALUE('http://fs1/a'))\n\
              B: INSERT INTO n VALUES (1, DLVALUE('http://fs1/a'))\n\
              A: DROP TABLE m\n\
              B: INSERT INTO n VALUES (1, DLVALUE('http://fs1/a'))\n\
              A: COMMIT\n\
              A: SELECT COUNT(*) FROM m\n\
              B: DROP TABLE n\n\
              @ann list\n",
            b"1: ok\n2: ok\n3: ok\n4: ok\n5: ok 1-3\n6: ok 1\n7: refused busy /a 1-3\n8: ok\n9: ok 1\n10: ok commit 4\n11: refused no table m\n\
              12: ok\n13: ok files 2\n13| /a ann on 3\n13| /b ann on 3\n",
        ),
    ]
}

/// A statement alone that is refused draws a number and leaves nothing, and a transaction that changed nothing makes no commit.
fn alone() -> [Row; 1] {
    [(
        b"run",
        b"A: CREATE TABLE t (x INTEGER PRIMARY KEY)\n\
              A: INSERT INTO t VALUES (1), (1)\n\
              A: SELECT COUNT(*) FROM t\n\
              A: INSERT INTO t VALUES (1)\n\
              A: SELECT x FROM u\n\
              A: CREATE TABLE t (x INTEGER)\n\
              A: BEGIN\n\
              A: ROLLBACK\n\
              A: COMMIT\n\
              B: BEGIN\n\
              A: BEGIN\n\
              B: COMMIT\n\
              A: INSERT INTO t VALUES (1)\n\
              A: COMMIT\n\
              A: BEGIN\n",
        b"1: ok\n2: refused duplicate key 2\n3: rows 1\n3| 0\n4: ok 1\n5: refused no table u\n6: refused table exists t\n7: ok 1-7\n8: ok\n\
              9: refused no transaction\n10: ok 1-8\n11: ok 1-9\n12: ok\n13: refused duplicate key 2\n14: ok\n15: ok 1-10\n",
    )]
}

/// Whether a script tells this text, and ends well. `None` is want of memory.
pub fn tells(alloc: Global, row: &Row) -> Option<bool> {
    let bench = bench_with(alloc, None, None)?;
    let (status, after) = done(alloc, row.0, row.1, bench)?;
    let tells = status == Status::Done && after.told() == row.2;
    drop(after);
    Some(tells)
}

#[test]
fn links_and_what_they_forbid(rt: HostRuntime) {
    for row in linking() {
        assert_eq!(rt; tells(rt.alloc(), &row), Some(true));
    }
}

#[test]
fn transactions_that_overlap(rt: HostRuntime) {
    for row in overlapping() {
        assert_eq!(rt; tells(rt.alloc(), &row), Some(true));
    }
}

#[test]
fn files_statements_and_bad_lines(rt: HostRuntime) {
    for row in plain() {
        assert_eq!(rt; tells(rt.alloc(), &row), Some(true));
    }
}

#[test]
fn a_token_that_expires(rt: HostRuntime) {
    for row in clock() {
        assert_eq!(rt; tells(rt.alloc(), &row), Some(true));
    }
}

#[test]
fn two_transactions_and_one_file(rt: HostRuntime) {
    for row in orders() {
        assert_eq!(rt; tells(rt.alloc(), &row), Some(true));
    }
}

#[test]
fn statements_alone(rt: HostRuntime) {
    for row in alone() {
        assert_eq!(rt; tells(rt.alloc(), &row), Some(true));
    }
}
