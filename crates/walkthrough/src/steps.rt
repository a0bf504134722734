//! The steps of the task, each printed.
use anyhow::Context;
use digest::value::Digest;
use naming::name::Name;
use refusal::Refusal;
use row::fault::at_cloud;
use row::interface::Row;
use sha256::kind::Sha256;
use std::io;
use std::iter::successors;

/// A heading, and bytes in hexadecimal.
pub(super) fn print_hex(rt: &HostRuntime, heading: &str, bytes: &[u8]) -> anyhow::Result<()> {
    let text = hexadecimal::encode(rt.alloc(), bytes)?;
    println!(rt; "{heading} {text}.")?;
    Ok(())
}

fn print_refusal(rt: &HostRuntime, refusal: &Refusal) -> io::Result<()> {
    match refusal.fault() {
        Some(fault) => println!(rt; "refused with {}: {fault}.", refusal.number()),
        None => println!(rt; "{refusal}."),
    }
}

// A cloud's fault, on its way up, becomes the refusal of the step.
fn put_at<R: Row>(row: &mut R, cloud: usize, name: &Name, value: &[u8]) -> Result<(), Refusal> {
    Ok(at_cloud(cloud, row.put(cloud, name.as_bytes(), value))?)
}

fn get_at<R: Row>(
    row: &mut R,
    cloud: usize,
    name: &Name,
    part: &mut [u8],
) -> Result<usize, Refusal> {
    Ok(at_cloud(cloud, row.get(cloud, name.as_bytes(), part))?)
}

/// Keeps the value at a cloud.
pub(super) fn put<R: Row>(
    rt: &HostRuntime,
    row: &mut R,
    cloud: usize,
    name: &Name,
    value: &[u8],
) -> anyhow::Result<()> {
    print!(rt; "  cloud {cloud}: ")?;
    match put_at(row, cloud, name, value) {
        Ok(()) => println!(rt; "acknowledged.")?,
        Err(refusal) => print_refusal(rt, &refusal)?,
    }
    Ok(())
}

/// Reads the value back from a cloud, and checks its digest.
pub(super) fn get<R: Row>(
    rt: &HostRuntime,
    row: &mut R,
    cloud: usize,
    name: &Name,
    digest: &Digest,
) -> anyhow::Result<()> {
    print!(rt; "  cloud {cloud}: ")?;
    let mut part = [0; 3];
    match get_at(row, cloud, name, &mut part) {
        Ok(_) if digest.matches::<Sha256>(&part) => println!(rt;
            "the 3 bytes with this digest: the offset is right."
        )?,
        Ok(_) => println!(rt; "other bytes: they are not used.")?,
        Err(refusal) => print_refusal(rt, &refusal)?,
    }
    Ok(())
}

// The cloud's smallest name above a name.
fn next_name<R: Row>(row: &mut R, cloud: usize, above: &Name) -> Option<Name> {
    let mut place = [0; 39];
    let length = row.next(cloud, above.as_bytes(), &mut place).ok()??;
    Name::from_bytes(place.get(0..length)?)
}

/// Prints the names that a cloud holds, from the first to the last.
pub(super) fn list<R: Row>(rt: &HostRuntime, row: &mut R, cloud: usize) -> anyhow::Result<()> {
    let empty = Name::from_bytes(b"").context("no empty name")?;
    let first = next_name(row, cloud, &empty);
    // No cloud has more than 64 places.
    for name in successors(first, |last| next_name(row, cloud, last)).take(64) {
        print_hex(rt, " ", name.as_bytes())?;
    }
    Ok(())
}
