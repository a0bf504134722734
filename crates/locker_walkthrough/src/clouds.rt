//! The row of three clouds.
use crate::REFUSED;
use crate::lagging::LaggingCloud;
use anyhow::Context;
use cloud_faulty::faulty::FaultyCloud;
use cloud_fixed::fixed::FixedCloud;
use cloud_log::log_cloud::LogCloud;
use cloud_log::memory::LogMemory;
use row::pair::Pair;
use row::single::Single;

const PLACES: usize = 8;

// The bytes of a log: the longest record for each place, and one more.
const LOG_SIZE: usize = (PLACES + 1) * 1066;

// Cloud 2 does one call, does not answer the next two, and then works again.
const SCRIPT: [u8; 3] = [0, 1, 1];

type Log = Single<LogCloud>;

type Lagging = Single<LaggingCloud>;

type Failing = Single<FaultyCloud<FixedCloud>>;

pub(super) type Three = Pair<Log, Pair<Lagging, Failing>>;

fn fixed(rt: &HostRuntime) -> anyhow::Result<FixedCloud> {
    let memory = Vec::with_capacity(rt.alloc(), PLACES)?;
    FixedCloud::new(memory, PLACES).ok().context(REFUSED)
}

fn log(rt: &HostRuntime) -> anyhow::Result<LogCloud> {
    let memory = LogMemory {
        bytes: vec![in rt.alloc(); 0; LOG_SIZE]?,
        index: Vec::with_capacity(rt.alloc(), PLACES)?,
    };
    LogCloud::new(memory, PLACES).ok().context(REFUSED)
}

fn failing(rt: &HostRuntime) -> anyhow::Result<FaultyCloud<FixedCloud>> {
    FaultyCloud::new(fixed(rt)?, &SCRIPT).ok().context(REFUSED)
}

/// A log cloud that does what it should, one that lags, and a fixed one that falls silent after its first call.
pub(super) fn three(rt: &HostRuntime) -> anyhow::Result<Three> {
    Ok(Pair {
        left: Single { cloud: log(rt)? },
        right: Pair {
            left: Single {
                cloud: LaggingCloud::new(),
            },
            right: Single {
                cloud: failing(rt)?,
            },
        },
    })
}
