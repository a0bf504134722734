//! One task from beginning to end: a tractor's offset is saved on two of three clouds, one of them falls silent, and a
//! second tractor fetches the offset; and what becomes of a cloud that gives out an earlier copy.
#![tactic(auto)]

use anyhow::Context;
use directory_journal::journal::Journal;
use locker::locker::Locker;
use sha256::kind::Sha256;

mod clouds;
mod journals;
mod lagging;
mod told;
mod tractors;

/// The Locker of this walk.
type Kit = Locker<Journal, clouds::Three, Sha256>;

/// What is said where the clouds, the journal or the Locker is refused.
const REFUSED: &str = "the Locker was refused";

fn open(rt: &HostRuntime) -> anyhow::Result<Kit> {
    let row = clouds::three(rt)?;
    let journal = journals::empty(rt)?;
    Locker::open(journal, row, 1).ok().context(REFUSED)
}

// One cloud falls silent, and the other has the offset.
fn silence(rt: &HostRuntime, kit: &mut Kit) -> anyhow::Result<()> {
    println!(rt; "The first tractor saves +20 on clouds 0 and 2.")?;
    tractors::save(rt, kit, b"+20", [0, 2])?;
    println!(rt; "The second tractor fetches it; cloud 2 has fallen silent.")?;
    tractors::begin_fetch(rt, kit)?;
    tractors::try_cloud(rt, kit, 2)?;
    tractors::try_cloud(rt, kit, 0)?;
    println!(rt; "The first tractor deletes it.")?;
    tractors::delete(rt, kit)?;
    tractors::list(rt, kit)
}

// Where an earlier copy used to be steered by, it is refused.
fn lag(rt: &HostRuntime, kit: &mut Kit) -> anyhow::Result<()> {
    println!(rt; "")?;
    println!(rt; "The first tractor saves +25, and then +30, both on clouds 0 and 1.")?;
    tractors::save(rt, kit, b"+25", [0, 1])?;
    tractors::save(rt, kit, b"+30", [0, 1])?;
    println!(rt; "The second tractor fetches the offset; cloud 1 lags, and gives out +25.")?;
    tractors::begin_fetch(rt, kit)?;
    tractors::try_cloud(rt, kit, 1)?;
    tractors::try_cloud(rt, kit, 0)?;
    println!(rt; "The first tractor sweeps cloud 0.")?;
    tractors::sweep(rt, kit, 0)?;
    tractors::list(rt, kit)
}

fn run(rt: &HostRuntime) -> anyhow::Result<()> {
    println!(rt; "Three clouds, of which one may do anything.")?;
    let mut kit = open(rt)?;
    silence(rt, &mut kit)?;
    lag(rt, &mut kit)?;
    println!(rt; "")?;
    println!(rt; "The journal of the directory:")?;
    let (journal, _) = kit.close();
    journals::open_again(rt, journal)
}

fn main(rt: HostRuntime) -> anyhow::Result<()> {
    run(&rt)
}
