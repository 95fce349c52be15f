//! A join by workers in threads of their own: its pairs, its refusals, and what is told of it.

use super::*;

#[test]
fn workers_give_the_pairs_of_small_tables(rt: HostRuntime) -> Result<(), Fail> {
    for (o, keys) in TABLES.iter().enumerate() {
        let outer = table(rt.alloc(), keys)?;
        for (i, keys) in TABLES.iter().enumerate() {
            let inner = table(rt.alloc(), keys)?;
            let expected = nested(rt.alloc(), &outer, &inner)?;
            for workers in [1, 2, 4, 16] {
                let plan = many_batches(workers);
                let mut tally = LastJoin::new();
                let pairs = join(&rt, rt.alloc(), &outer, &inner, plan, &OpenGate, &mut tally)?;
                assert_eq!(rt;
                    pairs.as_slice(),
                    expected.as_slice(),
                    "outer {o}, inner {i}, {workers} workers"
                );
            }
        }
    }
    Ok(())
}

// Joins two tables by one plan so many times.
fn repeat<R: Abort + Threads + Wait + Sync>(
    rt: &R,
    alloc: Global,
    outer: &Rows,
    inner: &Rows,
    plan: Plan,
    rounds: u32,
    expected: &[Pair],
) -> Result<(), Fail> {
    for round in 0..rounds {
        let mut tally = LastJoin::new();
        let pairs = join(rt, alloc, outer, inner, plan, &OpenGate, &mut tally)?;
        assert!(rt; pairs.as_slice() == expected, "{plan:?}, round {round}");
    }
    Ok(())
}

#[test]
fn workers_give_the_pairs_of_larger_tables(rt: HostRuntime) -> Result<(), Fail> {
    let outer = mixed_table(rt.alloc(), 3_000, 700)?;
    let inner = mixed_table(rt.alloc(), 1_000, 700)?;
    let expected = nested(rt.alloc(), &outer, &inner)?;
    assert!(rt; expected.len() > 3_000);
    for (workers, rounds) in [(1, 1), (2, 1), (4, 10), (16, 10)] {
        for plan in [one_batch(workers), many_batches(workers)] {
            repeat(
                &rt,
                rt.alloc(),
                &outer,
                &inner,
                plan,
                rounds,
                expected.as_slice(),
            )?;
        }
    }
    Ok(())
}

// Whether an answer is right where there are so many pairs.
fn is_right(answer: Result<usize, JoinFault>, pairs: usize) -> bool {
    match answer {
        Ok(count) => count == pairs && pairs <= PAIR_LIMIT,
        Err(JoinFault::TooMany { counted }) => {
            counted > PAIR_LIMIT as u64 && counted <= pairs as u64
        }
        Err(JoinFault::NoMemory) => false,
    }
}

#[test]
fn workers_refuse_pairs_past_the_limit(rt: HostRuntime) -> Result<(), Fail> {
    // How many rows of one key, how many workers, and how many pairs.
    let cases = [
        (2_048, 2_048, 4, 4_194_304),
        (2_048, 2_049, 4, 4_196_352),
        (3_000, 3_000, 1, 9_000_000),
        (3_000, 3_000, 4, 9_000_000),
        (3_000, 3_000, 16, 9_000_000),
    ];
    for (outer, inner, workers, pairs) in cases {
        let outer = equal_table(rt.alloc(), outer)?;
        let inner = equal_table(rt.alloc(), inner)?;
        let plan = one_batch(workers);
        let mut tally = LastJoin::new();
        let answer = join(&rt, rt.alloc(), &outer, &inner, plan, &OpenGate, &mut tally);
        let answer = answer.map(|pairs| pairs.len());
        assert!(rt;
            is_right(answer, pairs),
            "{pairs} pairs, {workers} workers: {answer:?}"
        );
        assert!(rt; tally.joins == u64::from(answer.is_ok()));
    }
    Ok(())
}

#[test]
fn the_last_join_is_kept(rt: HostRuntime) -> Result<(), Fail> {
    let outer = table(rt.alloc(), TABLES[2])?;
    let inner = table(rt.alloc(), TABLES[4])?;
    let sizes = JoinSizes {
        inner: 5,
        outer: 5,
        workers: 2,
        pairs: 3,
    };
    let fresh = LastJoin::new();
    assert_eq!(rt; (fresh.joins, fresh.last), (0, None));
    let top = u64::MAX;
    for (before, after) in [(0, 1), (1, 2), (top - 1, top), (top, top)] {
        let mut tally = LastJoin {
            joins: before,
            last: None,
        };
        let pairs = join(
            &rt,
            rt.alloc(),
            &outer,
            &inner,
            one_batch(2),
            &OpenGate,
            &mut tally,
        )?;
        assert_eq!(rt; pairs.len(), 3);
        assert_eq!(rt; (tally.joins, tally.last), (after, Some(sizes)));
    }
    Ok(())
}
