// Each step of a session in each phase.
use crate::runs::{bench_with, done};
use datalinks::Status;
use dl_base::List;
use std::alloc::Global;

/// What brings a session into a phase, and what is told of it: no transaction, Active, Prepared and Decided. Each is of five lines.
fn phases() -> [(&'static [u8], &'static [u8]); 4] {
    [
        (b"A: CREATE TABLE t (x INTEGER)\n\n\n\n\n", b"1: ok\n"),
        (
            b"A: CREATE TABLE t (x INTEGER)\nA: BEGIN\nA: INSERT INTO t VALUES (1)\n\n\n",
            b"1: ok\n2: ok 1-2\n3: ok 1\n",
        ),
        (
            b"A: CREATE TABLE t (x INTEGER)\nA: BEGIN\nA: INSERT INTO t VALUES (1)\nA: !prepare\n\n",
            b"1: ok\n2: ok 1-2\n3: ok 1\n4: ok\n",
        ),
        (
            b"A: CREATE TABLE t (x INTEGER)\nA: BEGIN\nA: INSERT INTO t VALUES (1)\nA: !prepare\nA: !decide\n",
            b"1: ok\n2: ok 1-2\n3: ok 1\n4: ok\n5: ok commit 2\n",
        ),
    ]
}

/// The steps.
fn steps() -> [&'static [u8]; 8] {
    [
        b"A: BEGIN\n",
        b"A: COMMIT\n",
        b"A: ROLLBACK\n",
        b"A: !prepare\n",
        b"A: !decide\n",
        b"A: !finish\n",
        b"A: INSERT INTO t VALUES (2)\n",
        b"A: SELECT COUNT(*) FROM t\n",
    ]
}

/// What shows how the step left the session: what is committed, the phase, and the number that is drawn next.
fn behind() -> &'static [u8] {
    b"B: SELECT COUNT(*) FROM t\nA: !finish\nB: BEGIN\n"
}

/// What is told of each step, and of what is behind it, phase by phase.
fn answers() -> [[&'static [u8]; 8]; 4] {
    [
        [
            b"6: ok 1-2\n7: rows 1\n7| 0\n8: refused phase active\n9: ok 1-4\n",
            b"6: refused no transaction\n7: rows 1\n7| 0\n8: refused no transaction\n9: ok 1-3\n",
            b"6: refused no transaction\n7: rows 1\n7| 0\n8: refused no transaction\n9: ok 1-3\n",
            b"6: refused no transaction\n7: rows 1\n7| 0\n8: refused no transaction\n9: ok 1-3\n",
            b"6: refused no transaction\n7: rows 1\n7| 0\n8: refused no transaction\n9: ok 1-3\n",
            b"6: refused no transaction\n7: rows 1\n7| 0\n8: refused no transaction\n9: ok 1-3\n",
            b"6: ok 1\n7: rows 1\n7| 1\n8: refused no transaction\n9: ok 1-4\n",
            b"6: rows 1\n6| 0\n7: rows 1\n7| 0\n8: refused no transaction\n9: ok 1-4\n",
        ],
        [
            b"6: refused in transaction 1-2\n7: rows 1\n7| 0\n8: refused phase active\n9: ok 1-4\n",
            b"6: ok commit 2\n7: rows 1\n7| 1\n8: refused no transaction\n9: ok 1-4\n",
            b"6: ok\n7: rows 1\n7| 0\n8: refused no transaction\n9: ok 1-4\n",
            b"6: ok\n7: rows 1\n7| 0\n8: refused phase prepared\n9: ok 1-4\n",
            b"6: refused phase active\n7: rows 1\n7| 0\n8: refused phase active\n9: ok 1-4\n",
            b"6: refused phase active\n7: rows 1\n7| 0\n8: refused phase active\n9: ok 1-4\n",
            b"6: ok 1\n7: rows 1\n7| 0\n8: refused phase active\n9: ok 1-4\n",
            b"6: rows 1\n6| 1\n7: rows 1\n7| 0\n8: refused phase active\n9: ok 1-4\n",
        ],
        [
            b"6: refused in transaction 1-2\n7: rows 1\n7| 0\n8: refused phase prepared\n9: ok 1-4\n",
            b"6: ok commit 2\n7: rows 1\n7| 1\n8: refused no transaction\n9: ok 1-4\n",
            b"6: ok\n7: rows 1\n7| 0\n8: refused no transaction\n9: ok 1-4\n",
            b"6: refused phase prepared\n7: rows 1\n7| 0\n8: refused phase prepared\n9: ok 1-4\n",
            b"6: ok commit 2\n7: rows 1\n7| 1\n8: ok\n9: ok 1-4\n",
            b"6: refused phase prepared\n7: rows 1\n7| 0\n8: refused phase prepared\n9: ok 1-4\n",
            b"6: refused phase prepared\n7: rows 1\n7| 0\n8: refused phase prepared\n9: ok 1-4\n",
            b"6: refused phase prepared\n7: rows 1\n7| 0\n8: refused phase prepared\n9: ok 1-4\n",
        ],
        [
            b"6: refused in transaction 1-2\n7: rows 1\n7| 1\n8: ok\n9: ok 1-4\n",
            b"6: ok\n7: rows 1\n7| 1\n8: refused no transaction\n9: ok 1-4\n",
            b"6: refused phase decided\n7: rows 1\n7| 1\n8: ok\n9: ok 1-4\n",
            b"6: refused phase decided\n7: rows 1\n7| 1\n8: ok\n9: ok 1-4\n",
            b"6: refused phase decided\n7: rows 1\n7| 1\n8: ok\n9: ok 1-4\n",
            b"6: ok\n7: rows 1\n7| 1\n8: refused no transaction\n9: ok 1-4\n",
            b"6: refused phase decided\n7: rows 1\n7| 1\n8: ok\n9: ok 1-4\n",
            b"6: refused phase decided\n7: rows 1\n7| 1\n8: ok\n9: ok 1-4\n",
        ],
    ]
}

/// The script of a step in a phase.
fn script_of(alloc: Global, phase: usize, step: usize) -> Option<List<u8>> {
    let mut script = List::empty(alloc);
    let first = phases().get(phase).copied()?.0;
    let asked = steps().get(step).copied()?;
    for part in [first, asked, behind()] {
        script.extend(part).ok()?;
    }
    Some(script)
}

/// Whether what was told is what is to be told of the phase, and then this.
fn is_told(told: &[u8], phase: usize, then: &[u8]) -> bool {
    let Some((_, first)) = phases().get(phase).copied() else {
        return false;
    };
    told.starts_with(first) && &told[first.len()..] == then
}

/// Whether this was told of a step in a phase, and of what is behind it.
fn is_answered(told: &[u8], phase: usize, step: usize) -> bool {
    match answers().get(phase) {
        Some(of_steps) => match of_steps.get(step) {
            Some(then) => is_told(told, phase, then),
            None => false,
        },
        None => false,
    }
}

/// Whether a step in a phase is answered so, in a run that ends well.
fn answers_so(alloc: Global, phase: usize, step: usize) -> Option<bool> {
    let script = script_of(alloc, phase, step)?;
    let bench = bench_with(alloc, None, None)?;
    let (status, after) = done(alloc, b"run", script.as_slice(), bench)?;
    let is_so = status == Status::Done && is_answered(after.told(), phase, step);
    drop(after);
    Some(is_so)
}

#[test]
fn each_step_in_each_phase(rt: HostRuntime) {
    for phase in 0..4 {
        for step in 0..8 {
            assert_eq!(rt;
                answers_so(rt.alloc(), phase, step),
                Some(true),
                "phase {phase}, step {step}"
            );
        }
    }
}
