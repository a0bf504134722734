//! The row of three clouds.
use anyhow::Context;
use cloud_faulty::faulty::FaultyCloud;
use cloud_fixed::fixed::FixedCloud;
use row::pair::Pair;
use row::single::Single;

const PLACES: usize = 8;

type Plain = Single<FixedCloud>;

type Failing = Single<FaultyCloud<FixedCloud>>;

pub(super) type Three = Pair<Plain, Pair<Plain, Failing>>;

// What is printed where the clouds are refused.
const REFUSED: &str = "the clouds were refused";

fn fixed(rt: &HostRuntime) -> anyhow::Result<FixedCloud> {
    let memory = Vec::with_capacity(rt.alloc(), PLACES)?;
    FixedCloud::new(memory, PLACES).ok().context(REFUSED)
}

// The script: the first call passes, the second meets silence, and so do some more.
fn failing(rt: &HostRuntime) -> anyhow::Result<FaultyCloud<FixedCloud>> {
    FaultyCloud::new(fixed(rt)?, &[0, 1, 1, 1])
        .ok()
        .context(REFUSED)
}

/// Two clouds that do what they should, and one that fails after its first call.
pub(super) fn three(rt: &HostRuntime) -> anyhow::Result<Three> {
    Ok(Pair {
        left: Single { cloud: fixed(rt)? },
        right: Pair {
            left: Single { cloud: fixed(rt)? },
            right: Single {
                cloud: failing(rt)?,
            },
        },
    })
}
