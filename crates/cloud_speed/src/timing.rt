//! Copies and calls timed in turns.
use crate::work::{self, SIZE};
use anyhow::anyhow;
use cloud::interface::Cloud;
use refusal::Cause;
use std::time::Instant;

const ROUNDS: usize = 31;

/// Seconds for the same number of copies and calls.
#[derive(Clone, Copy)]
pub(super) struct Times {
    pub(super) copies_in: f64,
    pub(super) puts: f64,
    pub(super) copies_out: f64,
    pub(super) gets: f64,
}

impl Times {
    fn best(self, other: Times) -> Times {
        Times {
            copies_in: self.copies_in.min(other.copies_in),
            puts: self.puts.min(other.puts),
            copies_out: self.copies_out.min(other.copies_out),
            gets: self.gets.min(other.gets),
        }
    }
}

// How long the step takes, where nothing in it is refused.
fn seconds<F: FnOnce() -> Result<(), Cause>>(rt: &HostRuntime, step: F) -> anyhow::Result<f64>
    requires { F.IsAlwaysCallable step }
{
    let start = Instant::now(rt)?;
    let done = step();
    let time = start.elapsed(rt)?;
    done.map_err(|_| anyhow!("a copy or a call was refused"))?;
    Ok(time.as_secs_f64())
}

fn round<C: Cloud>(
    rt: &HostRuntime,
    cloud: &mut C,
    places: &mut [[u8; SIZE]],
    part: &mut [u8; SIZE],
    names: u8,
    turns: u32,
) -> anyhow::Result<Times> {
    let copies_in = seconds(rt, || {
        work::copy_in(places, part, turns);
        Ok(())
    })?;
    let puts = seconds(rt, || work::put_all(cloud, names, part, turns))?;
    let copies_out = seconds(rt, || {
        work::copy_out(places, part, turns);
        Ok(())
    })?;
    let gets = seconds(rt, || work::get_all(cloud, names, part, turns))?;
    Ok(Times {
        copies_in,
        puts,
        copies_out,
        gets,
    })
}

/// The best times of many rounds.
pub(super) fn best_times<C: Cloud>(
    rt: &HostRuntime,
    cloud: &mut C,
    names: u8,
    turns: u32,
) -> anyhow::Result<Times> {
    let mut places = vec![in rt.alloc(); [0; SIZE]; names as usize]?;
    let mut part = [1; SIZE];
    let mut best = round(rt, cloud, &mut places, &mut part, names, turns)?;
    for _ in 1..ROUNDS {
        best = best.best(round(rt, cloud, &mut places, &mut part, names, turns)?);
    }
    Ok(best)
}
