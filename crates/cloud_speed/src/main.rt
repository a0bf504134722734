//! How fast the clouds are at values of 1,024 bytes: puts and gets a second, and as a share of plain copies of the
//! same bytes in the same run. It measures when it is given the word `measure`.
#![tactic(auto)]

use anyhow::anyhow;
use cloud::interface::Cloud;
use cloud_fixed::fixed::FixedCloud;
use cloud_log::log_cloud::LogCloud;
use cloud_log::memory::LogMemory;
use log_record::limits::LONGEST_RECORD;
use std::env;

mod timing;
mod work;

const PLACES: usize = 32;

fn measure<C: Cloud>(
    rt: &HostRuntime,
    kind: &str,
    cloud: &mut C,
    names: u8,
    turns: u32,
) -> anyhow::Result<()> {
    let times = timing::best_times(rt, cloud, names, turns)?;
    let calls = f64::from(names) * f64::from(turns);
    let puts = calls / times.puts;
    let gets = calls / times.gets;
    let put_share = times.copies_in / times.puts;
    let get_share = times.copies_out / times.gets;
    println!(rt; "{kind}, {names} of 32 places held:")?;
    println!(rt; "  {puts:.0} puts a second, {put_share:.3} of the plain copies")?;
    println!(rt; "  {gets:.0} gets a second, {get_share:.3} of the plain copies")?;
    Ok(())
}

fn fixed(rt: &HostRuntime) -> anyhow::Result<FixedCloud> {
    FixedCloud::new(Vec::with_capacity(rt.alloc(), PLACES)?, PLACES).map_err(|_| anyhow!(
        "the fixed cloud was refused"
    ))
}

fn log(rt: &HostRuntime) -> anyhow::Result<LogCloud> {
    let memory = LogMemory {
        bytes: vec![in rt.alloc(); 0; (PLACES + 1) * LONGEST_RECORD]?,
        index: Vec::with_capacity(rt.alloc(), PLACES)?,
    };
    LogCloud::new(memory, PLACES).map_err(|_| anyhow!("the log cloud was refused"))
}

fn run(rt: &HostRuntime) -> anyhow::Result<()> {
    if env::args(rt)?.len() < 2 {
        println!(rt; "usage: cloud_speed measure")?;
        return Ok(());
    }
    for (names, turns) in [(8, 2000), (16, 1000), (32, 500)] {
        measure(rt, "fixed kind", &mut fixed(rt)?, names, turns)?;
        measure(rt, "log kind", &mut log(rt)?, names, turns)?;
    }
    Ok(())
}

fn main(rt: HostRuntime) -> anyhow::Result<()> {
    run(&rt)
}
