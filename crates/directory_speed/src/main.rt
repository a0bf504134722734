//! How fast the directories are at 64 keys: nanoseconds for a look, a commit, and the opening of a full journal beside
//! one pass over its bytes. It measures when it is given the word `measure`.
#![tactic(auto)]

use anyhow::anyhow;
use directory::interface::Directory;
use directory_journal::journal::Journal;
use directory_journal::memory::JournalMemory;
use directory_table::table::Table;
use journal_record::record::LONGEST_RECORD;
use std::env;

mod opening;
mod timing;
mod work;

const PLACES: usize = 64;

const MEMORY: usize = (PLACES + 1) * LONGEST_RECORD;

fn table(rt: &HostRuntime) -> anyhow::Result<Table> {
    let memory = Vec::with_capacity(rt.alloc(), PLACES)?;
    Table::new(memory, PLACES).map_err(|_| anyhow!("the table was refused"))
}

fn memory(rt: &HostRuntime) -> anyhow::Result<JournalMemory> {
    Ok(JournalMemory {
        bytes: vec![in rt.alloc(); 0; MEMORY]?,
        index: Vec::with_capacity(rt.alloc(), PLACES)?,
    })
}

fn open(memory: JournalMemory) -> anyhow::Result<Journal> {
    Journal::open(memory, PLACES).map_err(|_| anyhow!("the journal was refused"))
}

// A line for each: the kind, the work, and the nanoseconds that one takes.
fn measure<D: Directory>(rt: &HostRuntime, kind: &str, directory: &mut D) -> anyhow::Result<()> {
    let times = timing::best_times(rt, directory)?;
    let look = times.look;
    let commit = times.commit;
    println!(rt; "{kind} look {look:.1}")?;
    println!(rt; "{kind} commit {commit:.1}")?;
    Ok(())
}

fn run(rt: &HostRuntime) -> anyhow::Result<()> {
    if env::args(rt)?.len() < 2 {
        println!(rt; "usage: directory_speed measure")?;
        return Ok(());
    }
    measure(rt, "table", &mut table(rt)?)?;
    let mut filled = open(memory(rt)?)?;
    measure(rt, "journal", &mut filled)?;
    opening::measure(rt, filled)
}

fn main(rt: HostRuntime) -> anyhow::Result<()> {
    run(&rt)
}
