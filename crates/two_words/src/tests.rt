//! Two turns, taken.

use crate::two_turns;

#[test]
fn both_words_count_both_turns(rt: HostRuntime) {
    assert_eq!(rt; two_turns(rt.alloc()).expect(&rt, "memory"), (2, 2));
}
