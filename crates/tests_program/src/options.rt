// What links forbid, option by option.
use crate::scripts::{Row, tells};

/// Each option by each command on files, of the owner and of another user, before a link, under it and behind it: without read and
/// write permission; with write permission blocked; and with read permission of the database too, whose file is then restored, or
/// deleted.
fn options() -> [Row; 4] {
    [
        (
            b"run",
            b"@ann create /a one\n\
              @bob write /a x\n\
              @bob delete /a\n\
              @bob rename /a /b\n\
              @bob chmod /a off\n\
              @bob read /a\n\
              @ann chmod /a off\n\
              @ann write /a x\n\
              @ann chmod /a on\n\
              @ann write /a two\n\
              @ann rename /a /b\n\
              @ann delete /b\n\
              @ann create /a one\n\
              A: CREATE TABLE m (id INTEGER PRIMARY KEY, f DATALINK LINKTYPE URL FILE LINK CONTROL INTEGRITY ALL READ PERMISSION FS WRITE PERMISSION FS RECOVERY NO ON UNLINK NONE)\n\
              A: INSERT INTO m VALUES (1, DLVALUE('http://fs1/a'))\n\
              @ann list\n\
              @bob create /a x\n\
              @bob write /a x\n\
              @bob delete /a\n\
              @bob rename /a /b\n\
              @bob chmod /a off\n\
              @bob read /a\n\
              @ann write /a two\n\
              @ann delete /a\n\
              @ann rename /a /b\n\
              @ann chmod /a off\n\
              @ann read /a\n\
              @ann list\n\
              A: DELETE FROM m\n\
              @ann list\n\
              @bob write /a x\n\
              @ann write /a three\n\
              @ann chmod /a on\n\
              @ann read /a\n\
              @ann rename /a /b\n\
              @bob delete /b\n\
              @ann delete /b\n\
              @ann list\n",
            b"1: ok\n2: refused not owner /a ann\n3: refused not owner /a ann\n4: refused not owner /a ann\n5: refused not owner /a ann\n\
              6: bytes 3\n6| one\n7: ok\n8: refused read only /a\n9: ok\n10: ok\n11: ok\n12: ok\n13: ok\n14: ok\n15: ok 1\n16: ok files 1\n\
              16| /a ann on 3\n17: refused exists /a\n18: refused not owner /a ann\n19: refused linked /a 1-2-1 delete\n\
              20: refused linked /a 1-2-1 rename\n21: refused not owner /a ann\n22: bytes 3\n22| one\n23: ok\n\
              24: refused linked /a 1-2-1 delete\n25: refused linked /a 1-2-1 rename\n26: ok\n27: bytes 3\n27| two\n28: ok files 1\n\
              28| /a ann off 3\n29: ok 1\n30: ok files 1\n30| /a ann off 3\n31: refused not owner /a ann\n32: refused read only /a\n33: ok\n\
              34: bytes 3\n34| two\n35: ok\n36: refused not owner /b ann\n37: ok\n38: ok files 0\n",
        ),
        (
            b"run",
            b"@ann create /a one\n\
              @bob write /a x\n\
              @bob delete /a\n\
              @bob rename /a /b\n\
              @bob chmod /a off\n\
              @bob read /a\n\
              @ann chmod /a off\n\
              @ann write /a x\n\
              @ann chmod /a on\n\
              @ann write /a two\n\
              @ann rename /a /b\n\
              @ann delete /b\n\
              @ann create /a one\n\
              A: CREATE TABLE m (id INTEGER PRIMARY KEY, f DATALINK LINKTYPE URL FILE LINK CONTROL INTEGRITY ALL READ PERMISSION FS WRITE PERMISSION BLOCKED RECOVERY NO ON UNLINK RESTORE)\n\
              A: INSERT INTO m VALUES (1, DLVALUE('http://fs1/a'))\n\
              @ann list\n\
              @bob create /a x\n\
              @bob write /a x\n\
              @bob delete /a\n\
              @bob rename /a /b\n\
              @bob chmod /a off\n\
              @bob read /a\n\
              @ann write /a two\n\
              @ann delete /a\n\
              @ann rename /a /b\n\
              @ann chmod /a off\n\
              @ann read /a\n\
              @ann list\n\
              A: DELETE FROM m\n\
              @ann list\n\
              @bob write /a x\n\
              @ann write /a three\n\
              @ann chmod /a on\n\
              @ann read /a\n\
              @ann rename /a /b\n\
              @bob delete /b\n\
              @ann delete /b\n\
              @ann list\n",
            b"1: ok\n2: refused not owner /a ann\n3: refused not owner /a ann\n4: refused not owner /a ann\n5: refused not owner /a ann\n\
              6: bytes 3\n6| one\n7: ok\n8: refused read only /a\n9: ok\n10: ok\n11: ok\n12: ok\n13: ok\n14: ok\n15: ok 1\n16: ok files 1\n\
              16| /a ann off 3\n17: refused exists /a\n18: refused linked /a 1-2-1 write\n19: refused linked /a 1-2-1 delete\n\
              20: refused linked /a 1-2-1 rename\n21: refused linked /a 1-2-1 chmod\n22: bytes 3\n22| one\n23: refused linked /a 1-2-1 write\n\
              24: refused linked /a 1-2-1 delete\n25: refused linked /a 1-2-1 rename\n26: refused linked /a 1-2-1 chmod\n27: bytes 3\n27| one\n\
              28: ok files 1\n28| /a ann off 3\n29: ok 1\n30: ok files 1\n30| /a ann on 3\n31: refused not owner /a ann\n32: ok\n33: ok\n\
              34: bytes 5\n34| three\n35: ok\n36: refused not owner /b ann\n37: ok\n38: ok files 0\n",
        ),
        (
            b"run",
            b"@ann create /a one\n\
              @bob write /a x\n\
              @bob delete /a\n\
              @bob rename /a /b\n\
              @bob chmod /a off\n\
              @bob read /a\n\
              @ann chmod /a off\n\
              @ann write /a x\n\
              @ann chmod /a on\n\
              @ann write /a two\n\
              @ann rename /a /b\n\
              @ann delete /b\n\
              @ann create /a one\n\
              A: CREATE TABLE m (id INTEGER PRIMARY KEY, f DATALINK LINKTYPE URL FILE LINK CONTROL INTEGRITY ALL READ PERMISSION DB WRITE PERMISSION BLOCKED RECOVERY NO ON UNLINK RESTORE)\n\
              A: INSERT INTO m VALUES (1, DLVALUE('http://fs1/a'))\n\
              @ann list\n\
              @bob create /a x\n\
              @bob write /a x\n\
              @bob delete /a\n\
              @bob rename /a /b\n\
              @bob chmod /a off\n\
              @bob read /a\n\
              @ann write /a two\n\
              @ann delete /a\n\
              @ann rename /a /b\n\
              @ann chmod /a off\n\
              @ann read /a\n\
              @ann list\n\
              A: DELETE FROM m\n\
              @ann list\n\
              @bob write /a x\n\
              @ann write /a three\n\
              @ann chmod /a on\n\
              @ann read /a\n\
              @ann rename /a /b\n\
              @bob delete /b\n\
              @ann delete /b\n\
              @ann list\n",
            b"1: ok\n2: refused not owner /a ann\n3: refused not owner /a ann\n4: refused not owner /a ann\n5: refused not owner /a ann\n\
              6: bytes 3\n6| one\n7: ok\n8: refused read only /a\n9: ok\n10: ok\n11: ok\n12: ok\n13: ok\n14: ok\n15: ok 1\n16: ok files 1\n\
              16| /a dlfm off 3\n17: refused exists /a\n18: refused linked /a 1-2-1 write\n19: refused linked /a 1-2-1 delete\n\
              20: refused linked /a 1-2-1 rename\n21: refused linked /a 1-2-1 chmod\n22: refused linked /a 1-2-1 no token\n\
              23: refused linked /a 1-2-1 write\n24: refused linked /a 1-2-1 delete\n25: refused linked /a 1-2-1 rename\n\
              26: refused linked /a 1-2-1 chmod\n27: refused linked /a 1-2-1 no token\n28: ok files 1\n28| /a dlfm off 3\n29: ok 1\n\
              30: ok files 1\n30| /a ann on 3\n31: refused not owner /a ann\n32: ok\n33: ok\n34: bytes 5\n34| three\n35: ok\n\
              36: refused not owner /b ann\n37: ok\n38: ok files 0\n",
        ),
        (
            b"run",
            b"@ann create /a one\n\
              @bob write /a x\n\
              @bob delete /a\n\
              @bob rename /a /b\n\
              @bob chmod /a off\n\
              @bob read /a\n\
              @ann chmod /a off\n\
              @ann write /a x\n\
              @ann chmod /a on\n\
              @ann write /a two\n\
              @ann rename /a /b\n\
              @ann delete /b\n\
              @ann create /a one\n\
              A: CREATE TABLE m (id INTEGER PRIMARY KEY, f DATALINK LINKTYPE URL FILE LINK CONTROL INTEGRITY ALL READ PERMISSION DB WRITE PERMISSION BLOCKED RECOVERY NO ON UNLINK DELETE)\n\
              A: INSERT INTO m VALUES (1, DLVALUE('http://fs1/a'))\n\
              @ann list\n\
              @bob create /a x\n\
              @bob write /a x\n\
              @bob delete /a\n\
              @bob rename /a /b\n\
              @bob chmod /a off\n\
              @bob read /a\n\
              @ann write /a two\n\
              @ann delete /a\n\
              @ann rename /a /b\n\
              @ann chmod /a off\n\
              @ann read /a\n\
              @ann list\n\
              A: DELETE FROM m\n\
              @ann list\n\
              @bob write /a x\n\
              @ann write /a three\n\
              @ann chmod /a on\n\
              @ann read /a\n\
              @ann rename /a /b\n\
              @bob delete /b\n\
              @ann delete /b\n\
              @ann list\n",
            b"1: ok\n2: refused not owner /a ann\n3: refused not owner /a ann\n4: refused not owner /a ann\n5: refused not owner /a ann\n\
              6: bytes 3\n6| one\n7: ok\n8: refused read only /a\n9: ok\n10: ok\n11: ok\n12: ok\n13: ok\n14: ok\n15: ok 1\n16: ok files 1\n\
              16| /a dlfm off 3\n17: refused exists /a\n18: refused linked /a 1-2-1 write\n19: refused linked /a 1-2-1 delete\n\
              20: refused linked /a 1-2-1 rename\n21: refused linked /a 1-2-1 chmod\n22: refused linked /a 1-2-1 no token\n\
              23: refused linked /a 1-2-1 write\n24: refused linked /a 1-2-1 delete\n25: refused linked /a 1-2-1 rename\n\
              26: refused linked /a 1-2-1 chmod\n27: refused linked /a 1-2-1 no token\n28: ok files 1\n28| /a dlfm off 3\n29: ok 1\n\
              30: ok files 0\n31: refused no file /a\n32: refused no file /a\n33: refused no file /a\n34: refused no file /a\n\
              35: refused no file /a\n36: refused no file /b\n37: refused no file /b\n38: ok files 0\n",
        ),
    ]
}

/// The same options by each command while the link is claimed, voted for, decided and finished, and while it is given up so: a claim
/// forbids nothing, and a link forbids until its end is finished.
fn claims() -> [Row; 4] {
    [
        (
            b"run",
            b"@ann create /a one\n\
              A: CREATE TABLE m (id INTEGER PRIMARY KEY, f DATALINK LINKTYPE URL FILE LINK CONTROL INTEGRITY ALL READ PERMISSION FS WRITE PERMISSION FS RECOVERY NO ON UNLINK NONE)\n\
              A: BEGIN\n\
              A: INSERT INTO m VALUES (1, DLVALUE('http://fs1/a'))\n\
              @ann chmod /a off\n\
              @ann chmod /a on\n\
              @ann rename /a /b\n\
              @ann rename /b /a\n\
              @ann delete /a\n\
              @ann create /a one\n\
              @bob read /a\n\
              A: !prepare\n\
              @ann write /a two\n\
              @ann delete /a\n\
              @ann rename /a /b\n\
              @ann chmod /a on\n\
              @bob read /a\n\
              A: !decide\n\
              @ann write /a two\n\
              @ann delete /a\n\
              @ann rename /a /b\n\
              @ann chmod /a on\n\
              @bob read /a\n\
              A: !finish\n\
              @ann write /a two\n\
              @ann delete /a\n\
              @ann rename /a /b\n\
              @ann chmod /a on\n\
              @bob read /a\n\
              @ann list\n\
              A: BEGIN\n\
              A: DELETE FROM m\n\
              @ann write /a two\n\
              @ann delete /a\n\
              @ann rename /a /b\n\
              @ann chmod /a on\n\
              @bob read /a\n\
              A: !prepare\n\
              @ann write /a two\n\
              @ann delete /a\n\
              @ann rename /a /b\n\
              @ann chmod /a on\n\
              @bob read /a\n\
              A: !decide\n\
              @ann write /a two\n\
              @ann delete /a\n\
              @ann rename /a /b\n\
              @ann chmod /a on\n\
              @bob read /a\n\
              A: !finish\n\
              @ann list\n\
              @bob read /a\n\
              @ann delete /a\n",
            b"1: ok\n2: ok\n3: ok 1-2\n4: ok 1\n5: ok\n6: ok\n7: ok\n8: ok\n9: ok\n10: ok\n11: bytes 3\n11| one\n12: ok\n13: ok\n\
              14: refused linked /a 1-2-1 delete\n15: refused linked /a 1-2-1 rename\n16: ok\n17: bytes 3\n17| two\n18: ok commit 2\n19: ok\n\
              20: refused linked /a 1-2-1 delete\n21: refused linked /a 1-2-1 rename\n22: ok\n23: bytes 3\n23| two\n24: ok\n25: ok\n\
              26: refused linked /a 1-2-1 delete\n27: refused linked /a 1-2-1 rename\n28: ok\n29: bytes 3\n29| two\n30: ok files 1\n\
              30| /a ann on 3\n31: ok 1-3\n32: ok 1\n33: ok\n34: refused linked /a 1-2-1 delete\n35: refused linked /a 1-2-1 rename\n36: ok\n\
              37: bytes 3\n37| two\n38: ok\n39: ok\n40: refused linked /a 1-2-1 delete\n41: refused linked /a 1-2-1 rename\n42: ok\n\
              43: bytes 3\n43| two\n44: ok commit 3\n45: ok\n46: refused linked /a 1-2-1 delete\n47: refused linked /a 1-2-1 rename\n48: ok\n\
              49: bytes 3\n49| two\n50: ok\n51: ok files 1\n51| /a ann on 3\n52: bytes 3\n52| two\n53: ok\n",
        ),
        (
            b"run",
            b"@ann create /a one\n\
              A: CREATE TABLE m (id INTEGER PRIMARY KEY, f DATALINK LINKTYPE URL FILE LINK CONTROL INTEGRITY ALL READ PERMISSION FS WRITE PERMISSION BLOCKED RECOVERY NO ON UNLINK RESTORE)\n\
              A: BEGIN\n\
              A: INSERT INTO m VALUES (1, DLVALUE('http://fs1/a'))\n\
              @ann chmod /a off\n\
              @ann chmod /a on\n\
              @ann rename /a /b\n\
              @ann rename /b /a\n\
              @ann delete /a\n\
              @ann create /a one\n\
              @bob read /a\n\
              A: !prepare\n\
              @ann write /a two\n\
              @ann delete /a\n\
              @ann rename /a /b\n\
              @ann chmod /a on\n\
              @bob read /a\n\
              A: !decide\n\
              @ann write /a two\n\
              @ann delete /a\n\
              @ann rename /a /b\n\
              @ann chmod /a on\n\
              @bob read /a\n\
              A: !finish\n\
              @ann write /a two\n\
              @ann delete /a\n\
              @ann rename /a /b\n\
              @ann chmod /a on\n\
              @bob read /a\n\
              @ann list\n\
              A: BEGIN\n\
              A: DELETE FROM m\n\
              @ann write /a two\n\
              @ann delete /a\n\
              @ann rename /a /b\n\
              @ann chmod /a on\n\
              @bob read /a\n\
              A: !prepare\n\
              @ann write /a two\n\
              @ann delete /a\n\
              @ann rename /a /b\n\
              @ann chmod /a on\n\
              @bob read /a\n\
              A: !decide\n\
              @ann write /a two\n\
              @ann delete /a\n\
              @ann rename /a /b\n\
              @ann chmod /a on\n\
              @bob read /a\n\
              A: !finish\n\
              @ann list\n\
              @bob read /a\n\
              @ann delete /a\n",
            b"1: ok\n2: ok\n3: ok 1-2\n4: ok 1\n5: ok\n6: ok\n7: ok\n8: ok\n9: ok\n10: ok\n11: bytes 3\n11| one\n12: ok\n\
              13: refused linked /a 1-2-1 write\n14: refused linked /a 1-2-1 delete\n15: refused linked /a 1-2-1 rename\n\
              16: refused linked /a 1-2-1 chmod\n17: bytes 3\n17| one\n18: ok commit 2\n19: refused linked /a 1-2-1 write\n\
              20: refused linked /a 1-2-1 delete\n21: refused linked /a 1-2-1 rename\n22: refused linked /a 1-2-1 chmod\n23: bytes 3\n23| one\n\
              24: ok\n25: refused linked /a 1-2-1 write\n26: refused linked /a 1-2-1 delete\n27: refused linked /a 1-2-1 rename\n\
              28: refused linked /a 1-2-1 chmod\n29: bytes 3\n29| one\n30: ok files 1\n30| /a ann off 3\n31: ok 1-3\n32: ok 1\n\
              33: refused linked /a 1-2-1 write\n34: refused linked /a 1-2-1 delete\n35: refused linked /a 1-2-1 rename\n\
              36: refused linked /a 1-2-1 chmod\n37: bytes 3\n37| one\n38: ok\n39: refused linked /a 1-2-1 write\n\
              40: refused linked /a 1-2-1 delete\n41: refused linked /a 1-2-1 rename\n42: refused linked /a 1-2-1 chmod\n43: bytes 3\n43| one\n\
              44: ok commit 3\n45: refused linked /a 1-2-1 write\n46: refused linked /a 1-2-1 delete\n47: refused linked /a 1-2-1 rename\n\
              48: refused linked /a 1-2-1 chmod\n49: bytes 3\n49| one\n50: ok\n51: ok files 1\n51| /a ann on 3\n52: bytes 3\n52| one\n53: ok\n",
        ),
        (
            b"run",
            b"@ann create /a one\n\
              A: CREATE TABLE m (id INTEGER PRIMARY KEY, f DATALINK LINKTYPE URL FILE LINK CONTROL INTEGRITY ALL READ PERMISSION DB WRITE PERMISSION BLOCKED RECOVERY NO ON UNLINK RESTORE)\n\
              A: BEGIN\n\
              A: INSERT INTO m VALUES (1, DLVALUE('http://fs1/a'))\n\
              @ann chmod /a off\n\
              @ann chmod /a on\n\
              @ann rename /a /b\n\
              @ann rename /b /a\n\
              @ann delete /a\n\
              @ann create /a one\n\
              @bob read /a\n\
              A: !prepare\n\
              @ann write /a two\n\
              @ann delete /a\n\
              @ann rename /a /b\n\
              @ann chmod /a on\n\
              @bob read /a\n\
              A: !decide\n\
              @ann write /a two\n\
              @ann delete /a\n\
              @ann rename /a /b\n\
              @ann chmod /a on\n\
              @bob read /a\n\
              A: !finish\n\
              @ann write /a two\n\
              @ann delete /a\n\
              @ann rename /a /b\n\
              @ann chmod /a on\n\
              @bob read /a\n\
              @ann list\n\
              A: BEGIN\n\
              A: DELETE FROM m\n\
              @ann write /a two\n\
              @ann delete /a\n\
              @ann rename /a /b\n\
              @ann chmod /a on\n\
              @bob read /a\n\
              A: !prepare\n\
              @ann write /a two\n\
              @ann delete /a\n\
              @ann rename /a /b\n\
              @ann chmod /a on\n\
              @bob read /a\n\
              A: !decide\n\
              @ann write /a two\n\
              @ann delete /a\n\
              @ann rename /a /b\n\
              @ann chmod /a on\n\
              @bob read /a\n\
              A: !finish\n\
              @ann list\n\
              @bob read /a\n\
              @ann delete /a\n",
            b"1: ok\n2: ok\n3: ok 1-2\n4: ok 1\n5: ok\n6: ok\n7: ok\n8: ok\n9: ok\n10: ok\n11: bytes 3\n11| one\n12: ok\n\
              13: refused linked /a 1-2-1 write\n14: refused linked /a 1-2-1 delete\n15: refused linked /a 1-2-1 rename\n\
              16: refused linked /a 1-2-1 chmod\n17: refused linked /a 1-2-1 no token\n18: ok commit 2\n19: refused linked /a 1-2-1 write\n\
              20: refused linked /a 1-2-1 delete\n21: refused linked /a 1-2-1 rename\n22: refused linked /a 1-2-1 chmod\n\
              23: refused linked /a 1-2-1 no token\n24: ok\n25: refused linked /a 1-2-1 write\n26: refused linked /a 1-2-1 delete\n\
              27: refused linked /a 1-2-1 rename\n28: refused linked /a 1-2-1 chmod\n29: refused linked /a 1-2-1 no token\n30: ok files 1\n\
              30| /a dlfm off 3\n31: ok 1-3\n32: ok 1\n33: refused linked /a 1-2-1 write\n34: refused linked /a 1-2-1 delete\n\
              35: refused linked /a 1-2-1 rename\n36: refused linked /a 1-2-1 chmod\n37: refused linked /a 1-2-1 no token\n38: ok\n\
              39: refused linked /a 1-2-1 write\n40: refused linked /a 1-2-1 delete\n41: refused linked /a 1-2-1 rename\n\
              42: refused linked /a 1-2-1 chmod\n43: refused linked /a 1-2-1 no token\n44: ok commit 3\n45: refused linked /a 1-2-1 write\n\
              46: refused linked /a 1-2-1 delete\n47: refused linked /a 1-2-1 rename\n48: refused linked /a 1-2-1 chmod\n\
              49: refused linked /a 1-2-1 no token\n50: ok\n51: ok files 1\n51| /a ann on 3\n52: bytes 3\n52| one\n53: ok\n",
        ),
        (
            b"run",
            b"@ann create /a one\n\
              A: CREATE TABLE m (id INTEGER PRIMARY KEY, f DATALINK LINKTYPE URL FILE LINK CONTROL INTEGRITY ALL READ PERMISSION DB WRITE PERMISSION BLOCKED RECOVERY NO ON UNLINK DELETE)\n\
              A: BEGIN\n\
              A: INSERT INTO m VALUES (1, DLVALUE('http://fs1/a'))\n\
              @ann chmod /a off\n\
              @ann chmod /a on\n\
              @ann rename /a /b\n\
              @ann rename /b /a\n\
              @ann delete /a\n\
              @ann create /a one\n\
              @bob read /a\n\
              A: !prepare\n\
              @ann write /a two\n\
              @ann delete /a\n\
              @ann rename /a /b\n\
              @ann chmod /a on\n\
              @bob read /a\n\
              A: !decide\n\
              @ann write /a two\n\
              @ann delete /a\n\
              @ann rename /a /b\n\
              @ann chmod /a on\n\
              @bob read /a\n\
              A: !finish\n\
              @ann write /a two\n\
              @ann delete /a\n\
              @ann rename /a /b\n\
              @ann chmod /a on\n\
              @bob read /a\n\
              @ann list\n\
              A: BEGIN\n\
              A: DELETE FROM m\n\
              @ann write /a two\n\
              @ann delete /a\n\
              @ann rename /a /b\n\
              @ann chmod /a on\n\
              @bob read /a\n\
              A: !prepare\n\
              @ann write /a two\n\
              @ann delete /a\n\
              @ann rename /a /b\n\
              @ann chmod /a on\n\
              @bob read /a\n\
              A: !decide\n\
              @ann write /a two\n\
              @ann delete /a\n\
              @ann rename /a /b\n\
              @ann chmod /a on\n\
              @bob read /a\n\
              A: !finish\n\
              @ann list\n\
              @bob read /a\n\
              @ann delete /a\n",
            b"1: ok\n2: ok\n3: ok 1-2\n4: ok 1\n5: ok\n6: ok\n7: ok\n8: ok\n9: ok\n10: ok\n11: bytes 3\n11| one\n12: ok\n\
              13: refused linked /a 1-2-1 write\n14: refused linked /a 1-2-1 delete\n15: refused linked /a 1-2-1 rename\n\
              16: refused linked /a 1-2-1 chmod\n17: refused linked /a 1-2-1 no token\n18: ok commit 2\n19: refused linked /a 1-2-1 write\n\
              20: refused linked /a 1-2-1 delete\n21: refused linked /a 1-2-1 rename\n22: refused linked /a 1-2-1 chmod\n\
              23: refused linked /a 1-2-1 no token\n24: ok\n25: refused linked /a 1-2-1 write\n26: refused linked /a 1-2-1 delete\n\
              27: refused linked /a 1-2-1 rename\n28: refused linked /a 1-2-1 chmod\n29: refused linked /a 1-2-1 no token\n30: ok files 1\n\
              30| /a dlfm off 3\n31: ok 1-3\n32: ok 1\n33: refused linked /a 1-2-1 write\n34: refused linked /a 1-2-1 delete\n\
              35: refused linked /a 1-2-1 rename\n36: refused linked /a 1-2-1 chmod\n37: refused linked /a 1-2-1 no token\n38: ok\n\
              39: refused linked /a 1-2-1 write\n40: refused linked /a 1-2-1 delete\n41: refused linked /a 1-2-1 rename\n\
              42: refused linked /a 1-2-1 chmod\n43: refused linked /a 1-2-1 no token\n44: ok commit 3\n45: refused linked /a 1-2-1 write\n\
              46: refused linked /a 1-2-1 delete\n47: refused linked /a 1-2-1 rename\n48: refused linked /a 1-2-1 chmod\n\
              49: refused linked /a 1-2-1 no token\n50: ok\n51: ok files 0\n52: refused no file /a\n53: refused no file /a\n",
        ),
    ]
}

/// A file that one transaction gives and takes, from one option to another. Of two links the first that forbids is named, and the file is
/// neither restored nor deleted between them.
fn moved() -> [Row; 4] {
    [
        (
            b"run",
            b"@ann create /a one\n\
              A: CREATE TABLE m (id INTEGER PRIMARY KEY, f DATALINK LINKTYPE URL FILE LINK CONTROL INTEGRITY ALL READ PERMISSION FS WRITE PERMISSION FS RECOVERY NO ON UNLINK NONE)\n\
              A: CREATE TABLE n (id INTEGER PRIMARY KEY, f DATALINK LINKTYPE URL FILE LINK CONTROL INTEGRITY ALL READ PERMISSION DB WRITE PERMISSION BLOCKED RECOVERY NO ON UNLINK RESTORE)\n\
              A: INSERT INTO m VALUES (1, DLVALUE('http://fs1/a'))\n\
              A: BEGIN\n\
              A: INSERT INTO n VALUES (1, DLVALUE('http://fs1/a'))\n\
              A: DELETE FROM m\n\
              A: INSERT INTO n VALUES (1, DLVALUE('http://fs1/a'))\n\
              @ann write /a two\n\
              @ann delete /a\n\
              @ann rename /a /b\n\
              @ann chmod /a on\n\
              @bob read /a\n\
              A: !prepare\n\
              @ann write /a two\n\
              @ann delete /a\n\
              @ann rename /a /b\n\
              @ann chmod /a on\n\
              @bob read /a\n\
              A: !decide\n\
              @ann write /a two\n\
              @ann delete /a\n\
              @ann rename /a /b\n\
              @ann chmod /a on\n\
              @bob read /a\n\
              A: !finish\n\
              @ann write /a two\n\
              @ann delete /a\n\
              @ann rename /a /b\n\
              @ann chmod /a on\n\
              @bob read /a\n\
              @ann list\n\
              A: DELETE FROM n\n\
              @ann list\n",
            b"1: ok\n2: ok\n3: ok\n4: ok 1\n5: ok 1-4\n6: refused already linked /a 1-3-1\n7: ok 1\n8: ok 1\n9: ok\n\
              10: refused linked /a 1-3-1 delete\n11: refused linked /a 1-3-1 rename\n12: ok\n13: bytes 3\n13| two\n14: ok\n\
              15: refused linked /a 1-4-1 write\n16: refused linked /a 1-3-1 delete\n17: refused linked /a 1-3-1 rename\n\
              18: refused linked /a 1-4-1 chmod\n19: refused linked /a 1-4-1 no token\n20: ok commit 4\n21: refused linked /a 1-4-1 write\n\
              22: refused linked /a 1-4-1 delete\n23: refused linked /a 1-4-1 rename\n24: refused linked /a 1-4-1 chmod\n\
              25: refused linked /a 1-4-1 no token\n26: ok\n27: refused linked /a 1-4-1 write\n28: refused linked /a 1-4-1 delete\n\
              29: refused linked /a 1-4-1 rename\n30: refused linked /a 1-4-1 chmod\n31: refused linked /a 1-4-1 no token\n32: ok files 1\n\
              32| /a dlfm off 3\n33: ok 1\n34: ok files 1\n34| /a ann on 3\n",
        ),
        (
            b"run",
            b"@ann create /a one\n\
              A: CREATE TABLE m (id INTEGER PRIMARY KEY, f DATALINK LINKTYPE URL FILE LINK CONTROL INTEGRITY ALL READ PERMISSION DB WRITE PERMISSION BLOCKED RECOVERY NO ON UNLINK RESTORE)\n\
              A: CREATE TABLE n (id INTEGER PRIMARY KEY, f DATALINK LINKTYPE URL FILE LINK CONTROL INTEGRITY ALL READ PERMISSION FS WRITE PERMISSION FS RECOVERY NO ON UNLINK NONE)\n\
              A: INSERT INTO m VALUES (1, DLVALUE('http://fs1/a'))\n\
              A: BEGIN\n\
              A: INSERT INTO n VALUES (1, DLVALUE('http://fs1/a'))\n\
              A: DELETE FROM m\n\
              A: INSERT INTO n VALUES (1, DLVALUE('http://fs1/a'))\n\
              @ann write /a two\n\
              @ann delete /a\n\
              @ann rename /a /b\n\
              @ann chmod /a on\n\
              @bob read /a\n\
              A: !prepare\n\
              @ann write /a two\n\
              @ann delete /a\n\
              @ann rename /a /b\n\
              @ann chmod /a on\n\
              @bob read /a\n\
              A: !decide\n\
              @ann write /a two\n\
              @ann delete /a\n\
              @ann rename /a /b\n\
              @ann chmod /a on\n\
              @bob read /a\n\
              A: !finish\n\
              @ann write /a two\n\
              @ann delete /a\n\
              @ann rename /a /b\n\
              @ann chmod /a on\n\
              @bob read /a\n\
              @ann list\n\
              A: DELETE FROM n\n\
              @ann list\n",
            b"1: ok\n2: ok\n3: ok\n4: ok 1\n5: ok 1-4\n6: refused already linked /a 1-3-1\n7: ok 1\n8: ok 1\n9: refused linked /a 1-3-1 write\n\
              10: refused linked /a 1-3-1 delete\n11: refused linked /a 1-3-1 rename\n12: refused linked /a 1-3-1 chmod\n\
              13: refused linked /a 1-3-1 no token\n14: ok\n15: refused linked /a 1-3-1 write\n16: refused linked /a 1-3-1 delete\n\
              17: refused linked /a 1-3-1 rename\n18: refused linked /a 1-3-1 chmod\n19: refused linked /a 1-3-1 no token\n20: ok commit 4\n\
              21: refused linked /a 1-3-1 write\n22: refused linked /a 1-4-1 delete\n23: refused linked /a 1-4-1 rename\n\
              24: refused linked /a 1-3-1 chmod\n25: refused linked /a 1-3-1 no token\n26: ok\n27: ok\n28: refused linked /a 1-4-1 delete\n\
              29: refused linked /a 1-4-1 rename\n30: ok\n31: bytes 3\n31| two\n32: ok files 1\n32| /a ann on 3\n33: ok 1\n34: ok files 1\n\
              34| /a ann on 3\n",
        ),
        (
            b"run",
            b"@ann create /a one\n\
              A: CREATE TABLE m (id INTEGER PRIMARY KEY, f DATALINK LINKTYPE URL FILE LINK CONTROL INTEGRITY ALL READ PERMISSION DB WRITE PERMISSION BLOCKED RECOVERY NO ON UNLINK DELETE)\n\
              A: CREATE TABLE n (id INTEGER PRIMARY KEY, f DATALINK LINKTYPE URL FILE LINK CONTROL INTEGRITY ALL READ PERMISSION FS WRITE PERMISSION BLOCKED RECOVERY NO ON UNLINK RESTORE)\n\
              A: INSERT INTO m VALUES (1, DLVALUE('http://fs1/a'))\n\
              A: BEGIN\n\
              A: INSERT INTO n VALUES (1, DLVALUE('http://fs1/a'))\n\
              A: DELETE FROM m\n\
              A: INSERT INTO n VALUES (1, DLVALUE('http://fs1/a'))\n\
              @ann write /a two\n\
              @ann delete /a\n\
              @ann rename /a /b\n\
              @ann chmod /a on\n\
              @bob read /a\n\
              A: !prepare\n\
              @ann write /a two\n\
              @ann delete /a\n\
              @ann rename /a /b\n\
              @ann chmod /a on\n\
              @bob read /a\n\
              A: !decide\n\
              @ann write /a two\n\
              @ann delete /a\n\
              @ann rename /a /b\n\
              @ann chmod /a on\n\
              @bob read /a\n\
              A: !finish\n\
              @ann write /a two\n\
              @ann delete /a\n\
              @ann rename /a /b\n\
              @ann chmod /a on\n\
              @bob read /a\n\
              @ann list\n\
              A: DELETE FROM n\n\
              @ann list\n",
            b"1: ok\n2: ok\n3: ok\n4: ok 1\n5: ok 1-4\n6: refused already linked /a 1-3-1\n7: ok 1\n8: ok 1\n9: refused linked /a 1-3-1 write\n\
              10: refused linked /a 1-3-1 delete\n11: refused linked /a 1-3-1 rename\n12: refused linked /a 1-3-1 chmod\n\
              13: refused linked /a 1-3-1 no token\n14: ok\n15: refused linked /a 1-3-1 write\n16: refused linked /a 1-3-1 delete\n\
              17: refused linked /a 1-3-1 rename\n18: refused linked /a 1-3-1 chmod\n19: refused linked /a 1-3-1 no token\n20: ok commit 4\n\
              21: refused linked /a 1-4-1 write\n22: refused linked /a 1-4-1 delete\n23: refused linked /a 1-4-1 rename\n\
              24: refused linked /a 1-4-1 chmod\n25: refused linked /a 1-3-1 no token\n26: ok\n27: refused linked /a 1-4-1 write\n\
              28: refused linked /a 1-4-1 delete\n29: refused linked /a 1-4-1 rename\n30: refused linked /a 1-4-1 chmod\n31: bytes 3\n31| one\n\
              32: ok files 1\n32| /a ann off 3\n33: ok 1\n34: ok files 1\n34| /a ann on 3\n",
        ),
        (
            b"run",
            b"@ann create /a one\n\
              A: CREATE TABLE m (id INTEGER PRIMARY KEY, f DATALINK LINKTYPE URL FILE LINK CONTROL INTEGRITY ALL READ PERMISSION FS WRITE PERMISSION BLOCKED RECOVERY NO ON UNLINK RESTORE)\n\
              A: CREATE TABLE n (id INTEGER PRIMARY KEY, f DATALINK LINKTYPE URL FILE LINK CONTROL INTEGRITY ALL READ PERMISSION DB WRITE PERMISSION BLOCKED RECOVERY NO ON UNLINK DELETE)\n\
              A: INSERT INTO m VALUES (1, DLVALUE('http://fs1/a'))\n\
              A: BEGIN\n\
              A: INSERT INTO n VALUES (1, DLVALUE('http://fs1/a'))\n\
              A: DELETE FROM m\n\
              A: INSERT INTO n VALUES (1, DLVALUE('http://fs1/a'))\n\
              @ann write /a two\n\
              @ann delete /a\n\
              @ann rename /a /b\n\
              @ann chmod /a on\n\
              @bob read /a\n\
              A: !prepare\n\
              @ann write /a two\n\
              @ann delete /a\n\
              @ann rename /a /b\n\
              @ann chmod /a on\n\
              @bob read /a\n\
              A: !decide\n\
              @ann write /a two\n\
              @ann delete /a\n\
              @ann rename /a /b\n\
              @ann chmod /a on\n\
              @bob read /a\n\
              A: !finish\n\
              @ann write /a two\n\
              @ann delete /a\n\
              @ann rename /a /b\n\
              @ann chmod /a on\n\
              @bob read /a\n\
              @ann list\n\
              A: DELETE FROM n\n\
              @ann list\n",
            b"1: ok\n2: ok\n3: ok\n4: ok 1\n5: ok 1-4\n6: refused already linked /a 1-3-1\n7: ok 1\n8: ok 1\n9: refused linked /a 1-3-1 write\n\
              10: refused linked /a 1-3-1 delete\n11: refused linked /a 1-3-1 rename\n12: refused linked /a 1-3-1 chmod\n13: bytes 3\n13| one\n\
              14: ok\n15: refused linked /a 1-3-1 write\n16: refused linked /a 1-3-1 delete\n17: refused linked /a 1-3-1 rename\n\
              18: refused linked /a 1-3-1 chmod\n19: refused linked /a 1-4-1 no token\n20: ok commit 4\n21: refused linked /a 1-4-1 write\n\
              22: refused linked /a 1-4-1 delete\n23: refused linked /a 1-4-1 rename\n24: refused linked /a 1-4-1 chmod\n\
              25: refused linked /a 1-4-1 no token\n26: ok\n27: refused linked /a 1-4-1 write\n28: refused linked /a 1-4-1 delete\n\
              29: refused linked /a 1-4-1 rename\n30: refused linked /a 1-4-1 chmod\n31: refused linked /a 1-4-1 no token\n32: ok files 1\n\
              32| /a dlfm off 3\n33: ok 1\n34: ok files 0\n",
        ),
    ]
}

#[test]
fn each_option_by_each_command(rt: HostRuntime) {
    for row in options() {
        assert_eq!(rt; tells(rt.alloc(), &row), Some(true));
    }
}

#[test]
fn each_option_in_each_phase(rt: HostRuntime) {
    for row in claims() {
        assert_eq!(rt; tells(rt.alloc(), &row), Some(true));
    }
}

#[test]
fn a_file_of_two_links(rt: HostRuntime) {
    for row in moved() {
        assert_eq!(rt; tells(rt.alloc(), &row), Some(true));
    }
}
