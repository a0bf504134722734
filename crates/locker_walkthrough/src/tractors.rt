//! What the tractors do, each step printed.
use crate::{Kit, told};
use protocol::answers::CommitOutcome;

/// Where the offset is kept.
pub(super) const CONTAINER: u8 = 7;

pub(super) const KEY: &[u8; 10] = b"drill/left";

// Begins to save the offset, and stores it at two clouds.
fn store_twice(
    rt: &HostRuntime,
    kit: &mut Kit,
    offset: &[u8],
    clouds: [usize; 2],
) -> anyhow::Result<()> {
    told::stamp(rt, "begin", kit.begin_save(1, CONTAINER, KEY, offset))?;
    let [first, second] = clouds;
    told::count(
        rt,
        "store at the one",
        "acknowledged",
        kit.store(1, first, offset),
    )?;
    told::count(
        rt,
        "store at the other",
        "acknowledged",
        kit.store(1, second, offset),
    )
}

/// Party 1 saves the offset on two clouds.
pub(super) fn save(
    rt: &HostRuntime,
    kit: &mut Kit,
    offset: &[u8],
    clouds: [usize; 2],
) -> anyhow::Result<()> {
    store_twice(rt, kit, offset, clouds)?;
    match told::accepted(rt, "commit", kit.commit(1))? {
        Some(CommitOutcome::Committed) => println!(rt; "  commit: committed.")?,
        Some(CommitOutcome::Passed) => println!(rt; "  commit: passed, a later save stands.")?,
        None => (),
    }
    Ok(())
}

/// Party 2 begins to fetch the offset.
pub(super) fn begin_fetch(rt: &HostRuntime, kit: &mut Kit) -> anyhow::Result<()> {
    if let Some(found) = told::accepted(rt, "begin", kit.begin_fetch(2, CONTAINER, KEY))? {
        let stamp = told::Printed(found.stamp);
        let size = found.size;
        println!(rt; "  begin: {stamp}, {size} bytes.")?;
    }
    Ok(())
}

/// Party 2 tries a cloud.
pub(super) fn try_cloud(rt: &HostRuntime, kit: &mut Kit, cloud: usize) -> anyhow::Result<()> {
    let mut buffer = [0; 3];
    let answer = kit.try_cloud(2, cloud, &mut buffer);
    print!(rt; "  cloud {cloud}:")?;
    if told::accepted(rt, "try", answer)?.is_some() {
        match str::from_utf8(&buffer) {
            Ok(offset) => println!(rt; " {offset}, and the second tractor steers by it.")?,
            Err(_) => println!(rt; " bytes that are no text.")?,
        }
    }
    Ok(())
}

/// Party 1 deletes the offset.
pub(super) fn delete(rt: &HostRuntime, kit: &mut Kit) -> anyhow::Result<()> {
    told::stamp(rt, "delete", kit.delete(1, CONTAINER, KEY))
}

/// What is saved in the container.
pub(super) fn list(rt: &HostRuntime, kit: &mut Kit) -> anyhow::Result<()> {
    let mut buffer = [0; 64];
    if let Some(listed) = told::accepted(rt, "list", kit.list(CONTAINER, &mut buffer))? {
        let count = listed.count;
        println!(rt; "  list: {count} keys.")?;
        match buffer.get(..listed.bytes) {
            Some(bytes) => told::hex(rt, "  its bytes: ", bytes)?,
            None => println!(rt; "  more bytes than the buffer has.")?,
        }
    }
    Ok(())
}

/// Party 1 sweeps the older copies off a cloud.
pub(super) fn sweep(rt: &HostRuntime, kit: &mut Kit, cloud: usize) -> anyhow::Result<()> {
    told::stamp(rt, "begin", kit.begin_sweep(1, CONTAINER, KEY))?;
    told::count(rt, "sweep", "older copies dropped", kit.sweep(1, cloud))?;
    if told::accepted(rt, "leave", kit.leave(1))?.is_some() {
        println!(rt; "  leave: idle.")?;
    }
    Ok(())
}
