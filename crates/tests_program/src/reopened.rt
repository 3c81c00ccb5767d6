// Two runs over one bench: what the first leaves open, and what stays good.
use crate::crashes::again;
use crate::runs::{bench_with, done};
use crate::scripts::Row;
use datalinks::Status;
use dl_bench::MemoryBench;
use std::alloc::Global;

/// A run whose end finds transactions open, and the run behind it: one with a claim; one that is voted for; one that is decided; one that is
/// decided and lets a file be deleted; and two that are decided beside one that is voted for.
fn stopped() -> [[Row; 2]; 5] {
    [
        [
            (
                b"run",
                b"@ann create /a one\n\
                  A: CREATE TABLE m (id INTEGER PRIMARY KEY, f DATALINK LINKTYPE URL FILE LINK CONTROL INTEGRITY ALL READ PERMISSION FS WRITE PERMISSION BLOCKED RECOVERY NO ON UNLINK RESTORE)\n\
                  A: BEGIN\n\
                  A: INSERT INTO m VALUES (1, DLVALUE('http://fs1/a'))\n",
                b"1: ok\n2: ok\n3: ok 1-2\n4: ok 1\n",
            ),
            (
                b"run",
                b"A: COMMIT\n\
                  A: SELECT COUNT(*) FROM m\n\
                  @ann delete /a\n\
                  A: BEGIN\n\
                  B: BEGIN\n",
                b"1: refused no transaction\n2: rows 1\n2| 0\n3: ok\n4: ok 2-2\n5: ok 2-3\n",
            ),
        ],
        [
            (
                b"run",
                b"@ann create /a one\n\
                  A: CREATE TABLE m (id INTEGER PRIMARY KEY, f DATALINK LINKTYPE URL FILE LINK CONTROL INTEGRITY ALL READ PERMISSION FS WRITE PERMISSION BLOCKED RECOVERY NO ON UNLINK RESTORE)\n\
                  A: BEGIN\n\
                  A: INSERT INTO m VALUES (1, DLVALUE('http://fs1/a'))\n\
                  A: !prepare\n\
                  @ann delete /a\n",
                b"1: ok\n2: ok\n3: ok 1-2\n4: ok 1\n5: ok\n6: refused linked /a 1-2-1 delete\n",
            ),
            (
                b"run",
                b"A: INSERT INTO m VALUES (5, NULL)\n\
                  @ann delete /a\n\
                  A: BEGIN\n",
                b"1: ok 1\n2: ok\n3: ok 2-2\n",
            ),
        ],
        [
            (
                b"run",
                b"@ann create /a one\n\
                  A: CREATE TABLE m (id INTEGER PRIMARY KEY, f DATALINK LINKTYPE URL FILE LINK CONTROL INTEGRITY ALL READ PERMISSION FS WRITE PERMISSION BLOCKED RECOVERY NO ON UNLINK RESTORE)\n\
                  A: BEGIN\n\
                  A: INSERT INTO m VALUES (1, DLVALUE('http://fs1/a'))\n\
                  A: !prepare\n\
                  A: !decide\n",
                b"1: ok\n2: ok\n3: ok 1-2\n4: ok 1\n5: ok\n6: ok commit 2\n",
            ),
            (
                b"run",
                b"@ann list\n\
                  @ann delete /a\n\
                  A: BEGIN\n\
                  A: DELETE FROM m\n\
                  A: COMMIT\n\
                  @ann list\n",
                b"1: ok files 1\n1| /a ann off 3\n2: refused linked /a 1-2-1 delete\n3: ok 2-1\n4: ok 1\n5: ok commit 3\n6: ok files 1\n\
                  6| /a ann on 3\n",
            ),
        ],
        [
            (
                b"run",
                b"@ann create /a one\n\
                  A: CREATE TABLE m (id INTEGER PRIMARY KEY, f DATALINK LINKTYPE URL FILE LINK CONTROL INTEGRITY ALL READ PERMISSION DB WRITE PERMISSION BLOCKED RECOVERY NO ON UNLINK DELETE)\n\
                  A: INSERT INTO m VALUES (1, DLVALUE('http://fs1/a'))\n\
                  A: BEGIN\n\
                  A: DELETE FROM m\n\
                  A: !prepare\n\
                  A: !decide\n\
                  @ann list\n",
                b"1: ok\n2: ok\n3: ok 1\n4: ok 1-3\n5: ok 1\n6: ok\n7: ok commit 3\n8: ok files 1\n8| /a dlfm off 3\n",
            ),
            (
                b"run",
                b"@ann list\n\
                  @ann create /a two\n\
                  A: INSERT INTO m VALUES (1, DLVALUE('http://fs1/a'))\n\
                  @ann delete /a\n",
                b"1: ok files 0\n2: ok\n3: ok 1\n4: refused linked /a 2-1-1 delete\n",
            ),
        ],
        [
            (
                b"run",
                b"@ann create /a one\n\
                  @ann create /b two\n\
                  A: CREATE TABLE m (id INTEGER PRIMARY KEY, f DATALINK LINKTYPE URL FILE LINK CONTROL INTEGRITY ALL READ PERMISSION DB WRITE PERMISSION BLOCKED RECOVERY NO ON UNLINK RESTORE)\n\
                  A: INSERT INTO m VALUES (1, DLVALUE('http://fs1/a'))\n\
                  A: CREATE TABLE n (id INTEGER PRIMARY KEY, f DATALINK LINKTYPE URL FILE LINK CONTROL INTEGRITY ALL READ PERMISSION FS WRITE PERMISSION BLOCKED RECOVERY NO ON UNLINK RESTORE)\n\
                  A: BEGIN\n\
                  A: DELETE FROM m\n\
                  A: !prepare\n\
                  A: !decide\n\
                  B: BEGIN\n\
                  B: INSERT INTO n VALUES (1, DLVALUE('http://fs1/b'))\n\
                  B: !prepare\n\
                  B: !decide\n\
                  C: BEGIN\n\
                  C: CREATE TABLE t (x INTEGER)\n\
                  C: INSERT INTO t VALUES (7)\n\
                  C: !prepare\n",
                b"1: ok\n2: ok\n3: ok\n4: ok 1\n5: ok\n6: ok 1-4\n7: ok 1\n8: ok\n9: ok commit 4\n10: ok 1-5\n11: ok 1\n12: ok\n13: ok commit 5\n\
                  14: ok 1-6\n15: ok\n16: ok 1\n17: ok\n",
            ),
            (
                b"run",
                b"@ann list\n\
                  A: SELECT COUNT(*) FROM t\n\
                  A: SELECT id, f FROM n\n\
                  @ann delete /a\n\
                  @ann delete /b\n\
                  A: INSERT INTO n VALUES (2, DLVALUE('http://fs1/a'))\n",
                b"1: ok files 2\n1| /a ann on 3\n1| /b ann off 3\n2: refused no table t\n3: rows 1\n3| 1 | <http://fs1/b>\n4: ok\n\
                  5: refused linked /b 1-5-1 delete\n6: refused no file /a\n",
            ),
        ],
    ]
}

/// Tokens: good, wrong, expired, and on other files, where the file is restored and where it is deleted; what `$NAME` stands for; a link that
/// takes the place of another; and other moments, lives and keys in a second run.
fn tokens() -> [[Row; 2]; 4] {
    [
        [
            (
                b"run --now 100 --life 60",
                b"@ann create /a one\n\
                  @ann create /b two\n\
                  @ann create /c three\n\
                  A: CREATE TABLE m (id INTEGER PRIMARY KEY, f DATALINK LINKTYPE URL FILE LINK CONTROL INTEGRITY ALL READ PERMISSION DB WRITE PERMISSION BLOCKED RECOVERY NO ON UNLINK RESTORE)\n\
                  A: INSERT INTO m VALUES (1, DLVALUE('http://fs1/a')), (2, DLVALUE('http://fs1/b'))\n\
                  @bob read /a\n\
                  @ann read /a\n\
                  A: SELECT DLURLPATH(f), DLURLCOMPLETE(f), DLURLPATHONLY(f) FROM m WHERE id = 1\n\
                  @bob read $A\n\
                  @bob read /160.7b57fb557152e2fec9555e464dc197b6;a\n\
                  @ann read /160.7b57fb557152e2fec9555e464dc197b0;a\n\
                  @ann read /161.7b57fb557152e2fec9555e464dc197b6;a\n\
                  @ann read /160.7b57fb557152e2fec9555e464dc197b6;b\n\
                  @ann read /160.7b57fb557152e2fec9555e464dc197b6;c\n\
                  @ann read /160.7b57fb557152e2fec9555e464dc197b6;d\n\
                  @ann read /100.f17b3b57650a7aacde136b8e51c52f55;a\n\
                  @ann read /99.abec77242eafaf06f71cca8ce3a38178;a\n\
                  @ann read /99.f17b3b57650a7aacde136b8e51c52f55;a\n\
                  @bob read /160.208d93032c74577263199251f0180b77;b\n\
                  A: SELECT x FROM m\n\
                  @bob read $A\n\
                  B: SELECT DLURLPATH(f) FROM m WHERE id = 2\n\
                  @bob read $B\n\
                  @bob read $A\n\
                  A: SELECT DLURLCOMPLETE(f) FROM m\n\
                  @bob read $A\n\
                  B: SELECT id FROM m\n\
                  @bob read $B\n\
                  A: SELECT DLURLPATH(f) FROM m WHERE id = 3\n\
                  @bob read $A\n\
                  @bob read $C\n\
                  A: BEGIN\n\
                  A: DELETE FROM m WHERE id = 1\n\
                  @bob read /160.7b57fb557152e2fec9555e464dc197b6;a\n\
                  A: INSERT INTO m VALUES (3, DLVALUE('http://fs1/a'))\n\
                  A: SELECT DLURLPATH(f) FROM m WHERE id = 3\n\
                  @bob read $A\n\
                  @bob read /160.7b57fb557152e2fec9555e464dc197b6;a\n\
                  A: COMMIT\n\
                  @bob read $A\n\
                  @bob read /160.7b57fb557152e2fec9555e464dc197b6;a\n\
                  @bob read /160.208d93032c74577263199251f0180b77;b\n",
                b"1: ok\n2: ok\n3: ok\n4: ok\n5: ok 2\n6: refused linked /a 1-2-1 no token\n7: refused linked /a 1-2-1 no token\n8: rows 1\n\
                  8| '/160.7b57fb557152e2fec9555e464dc197b6;a' | 'http://fs1/160.7b57fb557152e2fec9555e464dc197b6;a' | '/a'\n9: bytes 3\n9| one\n\
                  10: bytes 3\n10| one\n11: refused linked /a 1-2-1 wrong token\n12: refused linked /a 1-2-1 wrong token\n\
                  13: refused linked /b 1-2-2 wrong token\n14: bytes 5\n14| three\n15: refused no file /d\n16: bytes 3\n16| one\n\
                  17: refused linked /a 1-2-1 expired 99\n18: refused linked /a 1-2-1 wrong token\n19: bytes 3\n19| two\n20: refused no column x\n\
                  21: bytes 3\n21| one\n22: rows 1\n22| '/160.208d93032c74577263199251f0180b77;b'\n23: bytes 3\n23| two\n24: bytes 3\n24| one\n\
                  25: rows 2\n25| 'http://fs1/160.7b57fb557152e2fec9555e464dc197b6;a'\n25| 'http://fs1/160.208d93032c74577263199251f0180b77;b'\n\
                  26: refused no value A\n27: rows 2\n27| 1\n27| 2\n28: refused no value B\n29: rows 0\n30: refused no value A\n\
                  31: refused no value C\n32: ok 1-9\n33: ok 1\n34: bytes 3\n34| one\n35: ok 1\n36: rows 1\n\
                  36| '/160.2cf8ac363f4d3670fb481a99c644c409;a'\n37: refused linked /a 1-2-1 wrong token\n38: bytes 3\n38| one\n39: ok commit 3\n\
                  40: bytes 3\n40| one\n41: refused linked /a 1-9-1 wrong token\n42: bytes 3\n42| two\n",
            ),
            (
                b"run --now 161 --life 60",
                b"@bob read /160.208d93032c74577263199251f0180b77;b\n\
                  @bob read /160.7b57fb557152e2fec9555e464dc197b6;a\n\
                  @bob read $A\n\
                  A: SELECT DLURLPATH(f) FROM m WHERE id = 2\n\
                  @bob read $A\n",
                b"1: refused linked /b 1-2-2 expired 160\n2: refused linked /a 1-9-1 wrong token\n3: refused no value A\n4: rows 1\n\
                  4| '/221.3cd2073eb5dc6ea6b5391f198e5f4c11;b'\n5: bytes 3\n5| two\n",
            ),
        ],
        [
            (
                b"run --now 100 --life 60",
                b"@ann create /a one\n\
                  @ann create /c three\n\
                  A: CREATE TABLE m (id INTEGER PRIMARY KEY, f DATALINK LINKTYPE URL FILE LINK CONTROL INTEGRITY ALL READ PERMISSION DB WRITE PERMISSION BLOCKED RECOVERY NO ON UNLINK DELETE)\n\
                  A: INSERT INTO m VALUES (1, DLVALUE('http://fs1/a'))\n\
                  @ann read /a\n\
                  @bob read /160.7b57fb557152e2fec9555e464dc197b6;a\n\
                  @bob read /160.7b57fb557152e2fec9555e464dc197b0;a\n\
                  @bob read /99.abec77242eafaf06f71cca8ce3a38178;a\n\
                  @bob read /160.7b57fb557152e2fec9555e464dc197b6;c\n\
                  A: DELETE FROM m\n\
                  @bob read /160.7b57fb557152e2fec9555e464dc197b6;a\n",
                b"1: ok\n2: ok\n3: ok\n4: ok 1\n5: refused linked /a 1-2-1 no token\n6: bytes 3\n6| one\n7: refused linked /a 1-2-1 wrong token\n\
                  8: refused linked /a 1-2-1 expired 99\n9: bytes 5\n9| three\n10: ok 1\n11: refused no file /a\n",
            ),
            (
                b"run --now 161",
                b"@ann create /a two\n\
                  A: INSERT INTO m VALUES (1, DLVALUE('http://fs1/a'))\n\
                  @bob read /160.7b57fb557152e2fec9555e464dc197b6;a\n\
                  A: SELECT DLURLPATH(f) FROM m\n\
                  @bob read $A\n",
                b"1: ok\n2: ok 1\n3: refused linked /a 2-1-1 wrong token\n4: rows 1\n4| '/221.9602aa0e9defb30cf0f7f692e3256517;a'\n5: bytes 3\n\
                  5| two\n",
            ),
        ],
        [
            (
                b"run --now 100 --life 60",
                b"@ann create /b two\n\
                  A: CREATE TABLE m (id INTEGER PRIMARY KEY, f DATALINK LINKTYPE URL FILE LINK CONTROL INTEGRITY ALL READ PERMISSION DB WRITE PERMISSION BLOCKED RECOVERY NO ON UNLINK RESTORE)\n\
                  A: INSERT INTO m VALUES (1, NULL), (2, DLVALUE('http://fs1/b'))\n\
                  A: SELECT DLURLPATH(f) FROM m\n\
                  @bob read $A\n\
                  A: SELECT DLURLPATH(f) FROM m WHERE id = 2\n\
                  @bob read $A\n",
                b"1: ok\n2: ok\n3: ok 2\n4: rows 2\n4| NULL\n4| '/160.f4dfe87bfe8dfbf495e33e841cec2a50;b'\n5: refused no value A\n6: rows 1\n\
                  6| '/160.f4dfe87bfe8dfbf495e33e841cec2a50;b'\n7: bytes 3\n7| two\n",
            ),
            (
                b"run --key=ffffffffffffffffffffffffffffffffffffffffffffffffffffffffffffffff --now 160",
                b"A: SELECT DLURLPATH(f) FROM m WHERE id = 2\n\
                  @bob read $A\n\
                  @bob read /160.f4dfe87bfe8dfbf495e33e841cec2a50;b\n",
                b"1: rows 1\n1| '/220.a318cd5fb1a11544b95b912bd1f9b567;b'\n2: bytes 3\n2| two\n3: refused linked /b 1-2-1 wrong token\n",
            ),
        ],
        [
            (
                b"run --now 100 --life 60",
                b"@ann create /b two\n\
                  A: CREATE TABLE m (id INTEGER PRIMARY KEY, f DATALINK LINKTYPE URL FILE LINK CONTROL INTEGRITY ALL READ PERMISSION DB WRITE PERMISSION BLOCKED RECOVERY NO ON UNLINK RESTORE)\n\
                  A: INSERT INTO m VALUES (2, DLVALUE('http://fs1/b'))\n",
                b"1: ok\n2: ok\n3: ok 1\n",
            ),
            (
                b"run --now 160 --life 1",
                b"@bob read /160.f4dfe87bfe8dfbf495e33e841cec2a50;b\n\
                  @bob read /159.621c12171c0a60284331c6ec423efbcc;b\n",
                b"1: bytes 3\n1| two\n2: refused linked /b 1-2-1 expired 159\n",
            ),
        ],
    ]
}

/// What a run leaves that ended well and told its text.
fn left(alloc: Global, row: &Row, bench: MemoryBench) -> Option<MemoryBench> {
    let (status, after) = done(alloc, row.0, row.1, bench)?;
    if status == Status::Done && after.told() == row.2 {
        Some(after)
    } else {
        drop(after);
        None
    }
}

/// Whether both runs end well and tell their texts. `None` is want of memory, or no for the first.
fn both_tell(alloc: Global, rows: &[Row; 2]) -> Option<bool> {
    let first = left(alloc, &rows[0], bench_with(alloc, None, None)?)?;
    let bench = again(alloc, &first, None);
    drop(first);
    let second = left(alloc, &rows[1], bench?);
    let tells = second.is_some();
    drop(second);
    Some(tells)
}

#[test]
fn what_a_run_leaves_open(rt: HostRuntime) {
    for rows in stopped() {
        assert_eq!(rt; both_tell(rt.alloc(), &rows), Some(true));
    }
}

#[test]
fn tokens_in_two_runs(rt: HostRuntime) {
    for rows in tokens() {
        assert_eq!(rt; both_tell(rt.alloc(), &rows), Some(true));
    }
}
