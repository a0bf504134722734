//! Rows of three and of seven clouds.
use cloud_fixed::fixed::FixedCloud;
use refusal::Cause;
use row::interface::Row;
use row::pair::Pair;
use row::single::Single;
use std::alloc::AllocGlobal;
use std::process::Abort;
use std::test::*;

type One = Single<FixedCloud>;

type Two = Pair<One, One>;

type Three = Pair<One, Two>;

fn one(rt: &impl AllocGlobal) -> Result<One, Fail> {
    let memory = Vec::with_capacity(rt.alloc(), 2)?;
    let cloud = FixedCloud::new(memory, 2).map_err(|rejected| rejected.refusal)?;
    Ok(Single { cloud })
}

fn three(rt: &impl AllocGlobal) -> Result<Three, Fail> {
    let left = one(rt)?;
    let middle = one(rt)?;
    let right = one(rt)?;
    Ok(Pair {
        left,
        right: Pair {
            left: middle,
            right,
        },
    })
}

fn seven(rt: &impl AllocGlobal) -> Result<Pair<Pair<Three, Three>, One>, Fail> {
    let left = three(rt)?;
    let middle = three(rt)?;
    let right = one(rt)?;
    Ok(Pair {
        left: Pair {
            left,
            right: middle,
        },
        right,
    })
}

// Each cloud holds its own number under one name, and only that; the numbers from `count` on are silent.
fn check_row<R: Row>(rt: &impl Abort, row: &mut R, count: u8) {
    for cloud in 0..count {
        assert_eq!(rt; row.put(cloud as usize, b"n", &[cloud]), Ok(()));
    }
    assert_eq!(rt; row.drop(0, b"n"), Ok(()));
    assert_eq!(rt; row.get(0, b"n", &mut []), Err(Cause::NotHeld));
    for cloud in 1..count {
        check_cloud(rt, row, cloud);
    }
    for past in 0..3usize {
        assert_eq!(rt; row.past(count as usize + past), Some(past));
        check_silent(rt, row, count as usize + past);
    }
}

fn check_cloud<R: Row>(rt: &impl Abort, row: &mut R, number: u8) {
    let mut part = [0xEE; 2];
    let mut place = [0xEE; 39];
    let cloud = number as usize;
    assert_eq!(rt; row.past(cloud), None);
    assert_eq!(rt; row.get(cloud, b"n", &mut part), Ok(1));
    assert_eq!(rt; part, [number, 0xEE]);
    assert_eq!(rt; row.next(cloud, b"", &mut place), Ok(Some(1)));
    assert_eq!(rt; place[0], b'n');
}

fn check_silent<R: Row>(rt: &impl Abort, row: &mut R, cloud: usize) {
    let mut part = [0xEE; 2];
    let mut place = [0xEE; 39];
    assert_eq!(rt; row.put(cloud, b"n", &[1]), Err(Cause::Silent));
    assert_eq!(rt; row.get(cloud, b"n", &mut part), Err(Cause::Silent));
    assert_eq!(rt; row.drop(cloud, b"n"), Err(Cause::Silent));
    assert_eq!(rt; row.next(cloud, b"", &mut place), Err(Cause::Silent));
    assert_eq!(rt; part, [0xEE; 2]);
    assert_eq!(rt; place, [0xEE; 39]);
}

#[test]
fn rows_of_three_and_seven(rt: HostRuntime) -> Result<(), Fail> {
    check_row(&rt, &mut one(&rt)?, 1);
    check_row(&rt, &mut three(&rt)?, 3);
    check_row(&rt, &mut seven(&rt)?, 7);
    Ok(())
}
