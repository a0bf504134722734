//! Looks and commits timed in turns.
use crate::work;
use anyhow::ensure;
use directory::interface::Directory;
use std::time::Instant;

const ROUNDS: u32 = 31;

// Rounds of looks, and of commits, at all keys.
const TURNS: u32 = 200;

/// Nanoseconds for one look, and for one commit.
#[derive(Clone, Copy)]
pub(super) struct Times {
    pub(super) look: f64,
    pub(super) commit: f64,
}

/// What the work gives, and the seconds that it takes.
pub(super) fn timed<T: Drop, F: FnOnce() -> T>(
    rt: &HostRuntime,
    work: F,
) -> anyhow::Result<(T, f64)>
    requires { F.IsAlwaysCallable work }
{
    let start = Instant::now(rt)?;
    let done = work();
    Ok((done, start.elapsed(rt)?.as_secs_f64()))
}

fn round<D: Directory>(rt: &HostRuntime, directory: &mut D, first: u32) -> anyhow::Result<Times> {
    let calls = TURNS as f64 * work::KEYS as f64;
    let (committed, commits) = timed(rt, || work::commit_all(directory, first, TURNS))?;
    let (looked, looks) = timed(rt, || work::look_all(directory, TURNS))?;
    ensure!(committed && looked, "a commit or a look was refused");
    Ok(Times {
        look: looks / calls * 1e9,
        commit: commits / calls * 1e9,
    })
}

/// The best times of many rounds.
pub(super) fn best_times<D: Directory>(
    rt: &HostRuntime,
    directory: &mut D,
) -> anyhow::Result<Times> {
    let mut best = round(rt, directory, 1)?;
    for i in 1..ROUNDS {
        let times = round(rt, directory, i * TURNS + 1)?;
        best = Times {
            look: best.look.min(times.look),
            commit: best.commit.min(times.commit),
        };
    }
    Ok(best)
}
