//! The opening of a full journal, beside one pass over its bytes.
use crate::open;
use crate::timing::timed;
use directory_journal::journal::Journal;

const ROUNDS: u32 = 2000;

// One pass: a sum of all bytes.
fn sum(bytes: &[u8]) -> u32 {
    bytes.iter().fold(0, |sum: u32, byte| {
        sum.wrapping_mul(31).wrapping_add(u32::from(*byte))
    })
}

fn best_pass(rt: &HostRuntime, journal: &Journal) -> anyhow::Result<f64> {
    let mut best: f64 = 1e9;
    let mut sums: u32 = 0;
    for _ in 0..ROUNDS {
        let (more, time) = timed(rt, || sum(journal.bytes()))?;
        sums = sums.wrapping_add(more);
        best = best.min(time);
    }
    // The sum is printed, so that no pass is left out.
    println!(rt; "sum {sums}")?;
    Ok(best)
}

/// A line for each: the nanoseconds of an opening, and of a pass.
pub(super) fn measure(rt: &HostRuntime, mut journal: Journal) -> anyhow::Result<()> {
    let pass = best_pass(rt, &journal)? * 1e9;
    let mut best: f64 = 1e9;
    for _ in 0..ROUNDS {
        let (again, time) = timed(rt, || open(journal.close()))?;
        journal = again?;
        best = best.min(time);
    }
    let opening = best * 1e9;
    println!(rt; "journal open {opening:.1}")?;
    println!(rt; "journal pass {pass:.1}")?;
    Ok(())
}
