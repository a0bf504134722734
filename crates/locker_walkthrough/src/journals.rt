//! The journal of the directory: opened at first, and again after the box was switched off.
use crate::{REFUSED, told, tractors};
use anyhow::Context;
use directory::interface::Directory;
use directory_journal::journal::Journal;
use directory_journal::memory::JournalMemory;
use naming::address::Address;
use naming::key::Key;

const PLACES: usize = 4;

const SIZE: usize = (PLACES + 1) * 75;

/// An empty journal.
pub(super) fn empty(rt: &HostRuntime) -> anyhow::Result<Journal> {
    let memory = JournalMemory {
        bytes: vec![in rt.alloc(); 0; SIZE]?,
        index: Vec::with_capacity(rt.alloc(), PLACES)?,
    };
    Journal::open(memory, PLACES).ok().context(REFUSED)
}

fn print_entry(rt: &HostRuntime, journal: &mut Journal) -> anyhow::Result<()> {
    let at = Address {
        container: tractors::CONTAINER,
        key: Key::new(tractors::KEY).context("no key")?,
    };
    match journal.look(&at) {
        Some(entry) => {
            let stamp = told::Printed(entry.stamp());
            println!(rt; "  drill/left: {stamp}.")?;
        }
        None => println!(rt; "  drill/left: no entry.")?,
    }
    Ok(())
}

/// Prints the journal, opens its bytes again, and shows that the entry is still there; then damages them.
pub(super) fn open_again(rt: &HostRuntime, journal: Journal) -> anyhow::Result<()> {
    // The records: all bytes up to the first 0 that ends them.
    told::hex(rt, "  its bytes: ", journal.records())?;
    println!(rt; "The box is switched off and on; the bytes are opened again.")?;
    let mut again = match Journal::open(journal.close(), PLACES) {
        Ok(journal) => journal,
        Err(rejected) => return told::refused(rt, "open", &rejected.refusal),
    };
    print_entry(rt, &mut again)?;
    damaged(rt, again)
}

// Bit 5 of a record's first byte never stands.
fn damaged(rt: &HostRuntime, journal: Journal) -> anyhow::Result<()> {
    println!(rt; "One bit of the first record is damaged, and the bytes are opened again.")?;
    let mut memory = journal.close();
    if memory.bytes.is_empty() {
        return Ok(());
    }
    memory.bytes[0] ^= 0x20;
    match Journal::open(memory, PLACES) {
        Ok(_) => println!(rt; "  opened.")?,
        Err(rejected) => told::refused(rt, "open", &rejected.refusal)?,
    }
    Ok(())
}
