//! One task from beginning to end: a tractor's offset is kept on two of three clouds, one of them fails, and the
//! offset is read back from the other and checked.
#![tactic(auto)]

use anyhow::Context;
use digest::value::Digest;
use naming::address::Address;
use naming::key::Key;
use naming::name::Name;
use naming::stamp::Stamp;
use row::interface::Row;
use sha256::kind::Sha256;

mod clouds;
mod steps;

const CONTAINER: u8 = 7;

const KEY: &[u8; 10] = b"drill/left";

const OFFSET: &[u8; 3] = b"+20";

fn name(rt: &HostRuntime) -> anyhow::Result<Name> {
    let key = Key::new(KEY).context("no key")?;
    let stamp = Stamp::new(1, 1).context("no stamp")?;
    let at = Address {
        container: CONTAINER,
        key,
    };
    let name = Name::new(&at, &stamp);
    println!(rt; "Key drill/left in container 7, first write by party 1.")?;
    steps::print_hex(rt, "Its value is kept under the name", name.as_bytes())?;
    Ok(name)
}

fn walk<R: Row>(rt: &HostRuntime, row: &mut R) -> anyhow::Result<()> {
    let name = name(rt)?;
    let digest = Digest::of::<Sha256>(OFFSET);
    steps::print_hex(rt, "The offset +20 has the SHA-256", digest.as_bytes())?;
    println!(rt; "")?;
    println!(rt; "The first tractor keeps it on clouds 0 and 2.")?;
    steps::put(rt, row, 0, &name, OFFSET)?;
    steps::put(rt, row, 2, &name, OFFSET)?;
    println!(rt; "")?;
    println!(rt; "The second tractor asks for it.")?;
    steps::get(rt, row, 2, &name, &digest)?;
    steps::get(rt, row, 1, &name, &digest)?;
    steps::get(rt, row, 0, &name, &digest)?;
    println!(rt; "")?;
    println!(rt; "What cloud 0 holds:")?;
    steps::list(rt, row, 0)
}

fn run(rt: &HostRuntime) -> anyhow::Result<()> {
    println!(rt; "Three clouds; cloud 2 does one call and then falls silent.")?;
    let mut row = clouds::three(rt)?;
    walk(rt, &mut row)
}

fn main(rt: HostRuntime) -> anyhow::Result<()> {
    run(&rt)
}
