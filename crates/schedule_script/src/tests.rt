//! Scripts and their texts.

use crate::{ScriptFault, replay};
use std::alloc::{AllocError, Global};
use std::process::Abort;
use std::test::Fail;

// A post before the joiner clears its mask isn't absorbed.
const POST_BEFORE_JOINING: &[u8] =
    b"signal 2\n1 emit 0\n1 x2\n0 join\n0 x4\n1 x5\n0 absorb\n0 x5\n";

const POST_BEFORE_JOINING_TEXT: &[u8] =
    b"1 hload G 0\n1 mor S0.mask 1\n0 mswap S0.mask 0\n0 hload G 0\n0 gstore S0.gen 0\n0 pstore S0.pid 1\n0 = gen 0\n1 mor S1.mask 1\n1 hadd G 1\n1 pload S0.pid 1\n1 pend S0.pend 1\n1 pload S1.pid 0\n1 = gen 1\n0 pswap S0.pend 0\n0 gload S0.gen 0\n0 hload G 1\n0 mswap S0.mask 0\n0 gstore S0.gen 1\n0 = published 1\nfinal\nG 1\nS0.pid 1\nS0.gen 1\nS1.mask 1\n";

// Two emissions: the older generation is published, then the newer, and then a kind fails.
const OLDER_THEN_NEWER_THEN_KEPT: &[u8] =
    b"signal 2\n0 join\n0 x4\n1 emit 3\n1 x7\n0 absorb\n0 x3\n1 emit 5\n1 x4\n0 x2\n1 x3\n0 absorb\n0 x5\n1 emit 3\n1 x7\n0 absorb 8\n0 x6";

const OLDER_THEN_NEWER_THEN_KEPT_SHOWN: &[u8] =
    b"0 = gen 0\n1 = gen 1\n0 = published 1 3 5\n1 = gen 2\n0 = published 2\n1 = gen 3\n0 = kept 8\nfinal\nG 3\nS0.pid 1\nS0.gen 2\nS0.mask 8\nS0.pend 1\nS1.mask 40\n";

// Nobody emits any more at the last generation.
const WORN_GENERATION: &[u8] = b"signal 1 4611686018427387904\n0 emit 0\n0\n";

const WORN_GENERATION_TEXT: &[u8] =
    b"0 hload G 4611686018427387904\n0 = worn 4611686018427387904\nfinal\n";

// The last release wakes the waiter.
const LAST_RELEASE_WAKES: &[u8] =
    b"lock 3 1\n0 acquire 0 S\n0 x2\n1 acquire 0 S\n1 x2\n2 acquire 0 X\n2 x9\n0 release 0\n0\n1 release 0\n1 x7\n2 x6\n";

const LAST_RELEASE_WAKES_TEXT: &[u8] =
    b"0 load L0 20000000\n0 grant L0 20000001\n0 = got\n1 load L0 20000001\n1 grant L0 20000002\n1 = got\n2 load L0 20000002\n2 refuse L0 20000002\n2 lock L0 30000002\n2 flag L0 70000002\n2 wstore P2.waiting 1\n2 unlock L0 60000002\n2 load L0 60000002\n2 refuse L0 60000002\n2 look P2.sem 0\n0 sub L0 60000001\n0 = done\n1 sub L0 60000000\n1 lock L0 70000000\n1 wstore P2.waiting 2\n1 load L0 70000000\n1 wake L0 00000000\n1 wstore P2.waiting 0\n1 post P2.sem 1\n1 = done\n2 look P2.sem 1\n2 down P2.sem 0\n2 wload P2.waiting 0\n2 ok L0 20000000\n2 load L0 20000000\n2 grant L0 21000000\n2 = got waited\nfinal\nL0 21000000\n";

// An exchange that finds another word is made again.
const RETRY: &[u8] = b"lock 2 1\n0 acquire 0 S\n0\n1 acquire 0 S\n1 x2\n0 x2\n";

const RETRY_TEXT: &[u8] =
    b"0 load L0 20000000\n1 load L0 20000000\n1 grant L0 20000001\n1 = got\n0 retry L0 20000001\n0 grant L0 20000002\n0 = got\nfinal\nL0 20000002\n";

// Two surplus counts are given back.
const SURPLUS: &[u8] =
    b"lock 2 1\n1 acquire 0 X\n1 x2\n1 poke 0\n1\n1 poke 0\n1\n0 acquire 0 X\n0 x15\n1 release 0\n1 x7\n0 x8";

const SURPLUS_SHOWN: &[u8] =
    b"1 = got\n1 = done\n1 = done\n1 = done\n0 = got waited\nfinal\nL0 21000000\nP0.sem 2\n";

// A change of the variable wakes.
const CHANGE: &[u8] = b"lock 2 1\n0 acquire 0 X\n0 x2\n1 varwait 0 0\n1 x14\n0 var 0 7\n0 x6\n1 x7";

const CHANGE_SHOWN: &[u8] = b"0 = got\n0 = done\n1 = changed 7\nfinal\nL0 61000000\nL0.var 7\n";

// Shared waiters pass an exclusive one.
const PASSING: &[u8] =
    b"lock 4 1\n0 acquire 0 X\n0 x2\n1 acquire 0 S\n1 x9\n2 acquire 0 X\n2 x9\n3 acquire 0 S\n3 x9\n0 release 0\n0 x10";

const PASSING_SHOWN: &[u8] =
    b"0 = got\n0 = done\nfinal\nL0 40000000\nP1.sem 1\nP2.waiting 1\nP3.sem 1\nlist L0 2X\n";

// A list in hand isn't at home.
const IN_HAND: &[u8] = b"lock 2 1\n0 acquire 0 X\n0 x2\n1 acquire 0 X\n1 x8\n0 release 0\n0 x2";

const IN_HAND_SHOWN: &[u8] = b"0 = got\nfinal\nL0 70000000\nP1.waiting 1\n";

// A refusal, guarded words, a freed lock and a surplus.
const CALLS: &[u8] =
    b"lock 3 1\n0 acquire 0 X\n0 x2\n1 try 0 S\n1 x2\n0 write 0 2 7\n0\n0 read 0 2\n0\n1 orwait 0 X\n1 x9\n2 poke 1\n2\n1 x3\n0 relvar 0 5\n0 x10\n1 x4\n1 down\n1 x2\n";

const CALLS_SHOWN: &[u8] =
    b"0 = got\n1 = held 21000000\n0 = done\n0 = value 7\n2 = done\n0 = done\n1 = freed 61000000\n1 = done\nfinal\nL0.var 5\nL0.g2 7\n";

// A latch that is set before the second look ends the wait there.
const SET_BEFORE_THE_SECOND_LOOK: &[u8] =
    b"wait 2 1 1\n0 waitlatch\n0 x2\n1 set 0\n1 x2\n0 x2\n1\n";

const SET_BEFORE_THE_SECOND_LOOK_TEXT: &[u8] =
    b"0 sload P0.set 0\n0 mstore P0.may 1\n1 sload P0.set 0\n1 sset P0.set 1\n0 sload P0.set 1\n0 mstore P0.may 0\n0 = latch\n1 mload P0.may 0\n1 = done\nfinal\nP0.set 1\n";

// One that is set after it wakes the sleeper, which clears its wake byte.
const SET_AFTER_THE_LOOK: &[u8] = b"wait 2 1 1\n0 waitlatch\n0 x5\n1 set 0\n1 x4\n0 x4\n";

const SET_AFTER_THE_LOOK_TEXT: &[u8] =
    b"0 sload P0.set 0\n0 mstore P0.may 1\n0 sload P0.set 0\n0 shload shut 0\n0 look P0.byte 0\n1 sload P0.set 0\n1 sset P0.set 1\n1 mload P0.may 1\n1 byte P0.byte 1\n1 = done\n0 look P0.byte 1\n0 mstore P0.may 0\n0 drain P0.byte 0\n0 sload P0.set 1\n0 = latch\nfinal\nP0.set 1\n";

// A phase passes as the last leaves, and one of those who waited is elected.
const ONE_IS_ELECTED: &[u8] =
    b"wait 3 1 1\n0 attach 0\n0 x2\n1 attach 0\n1 x2\n2 attach 0\n2 x2\n0 arrive 0\n0 x10\n1 arrive 0\n1 x10\n2 detach 0\n2 x16\n1 x11\n0 x11\n";

const ONE_IS_ELECTED_SHOWN: &[u8] =
    b"0 = phase 0\n1 = phase 0\n2 = phase 0\n2 = more\n1 = elected\n0 = released\nfinal\nB0 phase 1 participants 2 arrived 0 elected 1\n";

// A signal pops the sentinel of a broadcast, which then pops one who came late, and ends.
const SIGNAL_POPS_THE_SENTINEL: &[u8] =
    b"wait 6 1 1\n0 prepare 0\n0 x2\n1 prepare 0\n1 x2\n2 prepare 0\n2 x2\n3 broadcast 0\n3 x5\n5 prepare 0\n5 x2\n4 signal 0\n4 x5\n4 signal 0\n4 x5\n4 signal 0\n4 x5\n3 x5\n";

const SIGNAL_POPS_THE_SENTINEL_SHOWN: &[u8] =
    b"0 = done\n1 = done\n2 = done\n5 = done\n4 = sent 1\n4 = sent 2\n4 = sent 3\n3 = done\nfinal\nP0.set 1\nP1.set 1\nP2.set 1\nP3.set 1\nP5.set 1\n";

// The sole participant passes the phase.
const SOLE_PARTICIPANT: &[u8] = b"wait 1 1 1\n0 attach 0\n0 x2\n0 arrdetach 0\n0 x4\n";

const SOLE_PARTICIPANT_SHOWN: &[u8] =
    b"0 = phase 0\n0 = last\nfinal\nB0 phase 1 participants 0 arrived 0 elected 0\n";

// The last phase is never passed.
const WORN_PHASE: &[u8] = b"wait 1 1 1 4611686018427387904\n0 attach 0\n0 x2\n0 arrive 0\n0 x2\n";

const WORN_PHASE_SHOWN: &[u8] =
    b"0 = phase 4611686018427387904\n0 = worn 4611686018427387904\nfinal\nB0 phase 4611686018427387904 participants 1 arrived 0 elected 4611686018427387904\n";

// A list in hand isn't at home; a record in hand is printed as it was found.
const WAIT_IN_HAND: &[u8] =
    b"wait 2 1 1\n0 prepare 0\n0 x2\n0 attach 0\n0 x2\n1 signal 0\n1\n0 detach 0\n0\n";

const WAIT_IN_HAND_SHOWN: &[u8] =
    b"0 = done\n0 = phase 0\nfinal\nC0 1\nB0 1\nB0 phase 0 participants 1 arrived 0 elected 0\n";

// Every other call, with its answers.
const WAIT_CALLS: &[u8] =
    b"wait 3 2 1\n0 cancel\n0 sleep 1\n0 x2\n1 signal 1\n1 x5\n0 sleep 1\n0 x4\n0 cancel\n0 x2\n0 isset\n0\n0 set 0\n0 x3\n0 isset\n0\n0 reset\n0\n1 signal 0\n1 x2\n1 attach 0\n1 x2\n2 attach 0\n2 x2\n2 exceptlast 0\n2 x2\n1 exceptlast 0\n1 x2\n1 prepare 0\n1 x2\n1 cancel\n1 x2\n1 detach 0\n1 x2\n2 waitlatch\n2 x5\n1 shut\n1 x4\n2 x4\n2 x4\n";

const WAIT_CALLS_SHOWN: &[u8] =
    b"0 = false\n0 = prepared\n1 = sent 0\n0 = signalled\n0 = false\n0 = value 0\n0 = done\n0 = value 1\n0 = done\n1 = none\n1 = phase 0\n2 = phase 0\n2 = more\n1 = last\n1 = done\n1 = false\n1 = last\n1 = done\n2 = shutdown\nfinal\nP0.byte 1\nP1.byte 1\nshut 1\nB0 phase 1 participants 0 arrived 0 elected 0\n";

// Whether a line stands for an answer.
fn is_answer(line: &[u8]) -> bool {
    line.len() > 4 && (line[2] == b'=' || line[3] == b'=')
}

// The lines of answers, and all from `final` on.
fn shown(alloc: Global, text: &[u8]) -> Result<Vec<u8>, AllocError> {
    let mut kept = Vec::new(alloc);
    let mut ends = false;
    for line in text.split(|b| *b == b'\n') {
        ends = ends || line == b"final".as_slice();
        if line.len() > 0 && (ends || is_answer(line)) {
            kept.extend_from_slice(line)?;
            kept.extend_from_slice(b"\n")?;
        }
    }
    Ok(kept)
}

// The text of a script.
fn text_of(rt: &impl Abort, alloc: Global, script: &[u8]) -> Vec<u8> {
    match replay(alloc, script) {
        Ok(text) => text,
        Err(_) => panic!(rt; "no text"),
    }
}

// The first bad line of a script.
fn bad_line(rt: &impl Abort, alloc: Global, script: &[u8]) -> u64 {
    match replay(alloc, script) {
        Err(ScriptFault::Bad { line }) => line,
        _ => panic!(rt; "no bad line"),
    }
}

#[test]
fn scripts_have_their_texts(rt: HostRuntime) -> Result<(), Fail> {
    let cases = [
        (POST_BEFORE_JOINING, POST_BEFORE_JOINING_TEXT),
        (WORN_GENERATION, WORN_GENERATION_TEXT),
        (
            b"# leaving\nsignal 1\n\n0 join\n0 x4\n0 leave\n0 x2".as_slice(),
            b"0 mswap S0.mask 0\n0 hload G 0\n0 gstore S0.gen 0\n0 pstore S0.pid 1\n0 = gen 0\n0 gstore S0.gen 18446744073709551615\n0 pstore S0.pid 0\n0 = done\nfinal\n".as_slice(),
        ),
    ];
    for (script, text) in cases {
        assert_eq!(rt; text_of(&rt, rt.alloc(), script).as_slice(), text);
    }
    Ok(())
}

#[test]
fn lock_scripts_have_their_texts(rt: HostRuntime) -> Result<(), Fail> {
    let cases = [
        (LAST_RELEASE_WAKES, LAST_RELEASE_WAKES_TEXT),
        (RETRY, RETRY_TEXT),
    ];
    for (script, text) in cases {
        assert_eq!(rt; text_of(&rt, rt.alloc(), script).as_slice(), text);
    }
    Ok(())
}

#[test]
fn lock_scripts_answer_and_end(rt: HostRuntime) -> Result<(), Fail> {
    let cases = [
        (SURPLUS, SURPLUS_SHOWN),
        (CHANGE, CHANGE_SHOWN),
        (PASSING, PASSING_SHOWN),
        (IN_HAND, IN_HAND_SHOWN),
        (CALLS, CALLS_SHOWN),
    ];
    for (script, end) in cases {
        let text = text_of(&rt, rt.alloc(), script);
        let lines = shown(rt.alloc(), text.as_slice())?;
        assert_eq!(rt; lines.as_slice(), end);
    }
    Ok(())
}

#[test]
fn wait_scripts_have_their_texts(rt: HostRuntime) -> Result<(), Fail> {
    let cases = [
        (SET_BEFORE_THE_SECOND_LOOK, SET_BEFORE_THE_SECOND_LOOK_TEXT),
        (SET_AFTER_THE_LOOK, SET_AFTER_THE_LOOK_TEXT),
    ];
    for (script, text) in cases {
        assert_eq!(rt; text_of(&rt, rt.alloc(), script).as_slice(), text);
    }
    Ok(())
}

#[test]
fn wait_scripts_answer_and_end(rt: HostRuntime) -> Result<(), Fail> {
    let cases = [
        (ONE_IS_ELECTED, ONE_IS_ELECTED_SHOWN, 1024),
        (
            SIGNAL_POPS_THE_SENTINEL,
            SIGNAL_POPS_THE_SENTINEL_SHOWN,
            595,
        ),
        (SOLE_PARTICIPANT, SOLE_PARTICIPANT_SHOWN, 145),
        (WORN_PHASE, WORN_PHASE_SHOWN, 195),
        (WAIT_IN_HAND, WAIT_IN_HAND_SHOWN, 155),
        (WAIT_CALLS, WAIT_CALLS_SHOWN, 1045),
    ];
    for (script, end, length) in cases {
        let text = text_of(&rt, rt.alloc(), script);
        assert_eq!(rt; text.len(), length);
        let lines = shown(rt.alloc(), text.as_slice())?;
        assert_eq!(rt; lines.as_slice(), end);
    }
    Ok(())
}

#[test]
fn older_then_newer_then_kept(rt: HostRuntime) -> Result<(), Fail> {
    let text = text_of(&rt, rt.alloc(), OLDER_THEN_NEWER_THEN_KEPT);
    let lines = shown(rt.alloc(), text.as_slice())?;
    assert_eq!(rt; lines.as_slice(), OLDER_THEN_NEWER_THEN_KEPT_SHOWN);
    Ok(())
}

#[test]
fn bad_lines_are_named(rt: HostRuntime) -> Result<(), Fail> {
    let cases = [
        (b"".as_slice(), 1),
        (b"# a\n\n# b".as_slice(), 4),
        (b"# \xc3\xa9\nsignal 1\n".as_slice(), 1),
        (b"signal  1\n".as_slice(), 1),
        (b"signal 1\r\n".as_slice(), 1),
        (b"signal 01\n".as_slice(), 1),
        (b"signal 0\n".as_slice(), 1),
        (b"signal 65\n".as_slice(), 1),
        (b"signal 1 4611686018427387905\n".as_slice(), 1),
        (b"signal 1 0 0\n".as_slice(), 1),
        (b"signal 1 \n".as_slice(), 1),
        (b"signal 1\n# skipped\n0\n".as_slice(), 3),
        (b"signal 1\n1 join\n".as_slice(), 2),
        (b"signal 1\n0 leave\n".as_slice(), 2),
        (b"signal 1\n0 absorb\n".as_slice(), 2),
        (b"signal 1\n0 emit 32\n".as_slice(), 2),
        (b"signal 1\n0 emit 18446744073709551616\n".as_slice(), 2),
        (b"signal 1\n0 emit\n".as_slice(), 2),
        (b"signal 1\n0 join 1\n".as_slice(), 2),
        (b"signal 1\n0 join\n0 join\n".as_slice(), 3),
        (b"signal 1\n0 join\n0 x0\n".as_slice(), 3),
        (b"signal 1\n0 join\n0 x1001\n".as_slice(), 3),
        (b"signal 1\n0 join\n0 x5\n".as_slice(), 3),
        (
            b"signal 1\n0 join\n0 x4\n0 absorb 18446744073709551616\n".as_slice(),
            4,
        ),
    ];
    for (script, line) in cases {
        assert_eq!(rt; bad_line(&rt, rt.alloc(), script), line);
    }
    Ok(())
}

#[test]
fn bad_lines_on_locks_are_named(rt: HostRuntime) -> Result<(), Fail> {
    let cases = [
        (b"lock 0 1\n".as_slice(), 1),
        (b"lock 65 1\n".as_slice(), 1),
        (b"lock 1 0\n".as_slice(), 1),
        (b"lock 1 201\n".as_slice(), 1),
        (b"lock 1\n".as_slice(), 1),
        (b"lock 1 1 1\n".as_slice(), 1),
        (b"lock 1 1\n0 release 0\n".as_slice(), 2),
        (b"lock 1 1\n0\n".as_slice(), 2),
        (b"lock 1 1\n1 down\n".as_slice(), 2),
        (b"lock 1 1\n0 acquire 1 S\n".as_slice(), 2),
        (b"lock 1 1\n0 acquire 0 U\n".as_slice(), 2),
        (b"lock 1 1\n0 acquire 0\n".as_slice(), 2),
        (b"lock 1 1\n0 poke 1\n".as_slice(), 2),
        (b"lock 1 1\n0 down 0\n".as_slice(), 2),
        (
            b"lock 1 1\n0 varwait 0 18446744073709551616\n".as_slice(),
            2,
        ),
        (b"lock 1 1\n0 down\n0 down\n".as_slice(), 3),
        (b"lock 1 1\n0 acquire 0 S\n0 x3\n".as_slice(), 3),
        (b"lock 1 1\n0 acquire 0 S\n0 x2\n0 try 0 S\n".as_slice(), 4),
        (b"lock 1 1\n0 acquire 0 S\n0 x2\n0 var 0 1\n".as_slice(), 4),
        (
            b"lock 1 1\n0 acquire 0 X\n0 x2\n0 write 0 4 1\n".as_slice(),
            4,
        ),
    ];
    for (script, line) in cases {
        assert_eq!(rt; bad_line(&rt, rt.alloc(), script), line);
    }
    Ok(())
}

#[test]
fn bad_lines_on_waits_are_named(rt: HostRuntime) -> Result<(), Fail> {
    let cases = [
        (b"wait 1\n".as_slice(), 1),
        (b"wait 1 1\n".as_slice(), 1),
        (b"wait 0 1 1\n".as_slice(), 1),
        (b"wait 65 1 1\n".as_slice(), 1),
        (b"wait 1 161 1\n".as_slice(), 1),
        (b"wait 1 1 0\n".as_slice(), 1),
        (b"wait 1 1 2\n".as_slice(), 1),
        (b"wait 1 160 73\n".as_slice(), 1),
        (b"wait 1 1 1 4611686018427387905\n".as_slice(), 1),
        (b"wait 1 1 1 0 0\n".as_slice(), 1),
        (b"wait 1 1 1\n0\n".as_slice(), 2),
        (b"wait 1 1 1\n1 cancel\n".as_slice(), 2),
        (b"wait 1 1 1\n0 set 1\n".as_slice(), 2),
        (b"wait 1 2 1\n0 prepare 2\n".as_slice(), 2),
        (b"wait 1 2 1\n0 attach 1\n".as_slice(), 2),
        (b"wait 1 1 1\n0 reset 0\n".as_slice(), 2),
        (b"wait 1 1 1\n0 sleep\n".as_slice(), 2),
        (b"wait 1 1 1\n0 arrive 0\n".as_slice(), 2),
        (b"wait 1 1 1\n0 cancel\n0\n".as_slice(), 3),
        (b"wait 1 1 1\n0 reset\n0 isset\n".as_slice(), 3),
        (b"wait 1 1 1\n0 attach 0\n0 x2\n0 attach 0\n".as_slice(), 4),
    ];
    for (script, line) in cases {
        assert_eq!(rt; bad_line(&rt, rt.alloc(), script), line);
    }
    Ok(())
}
