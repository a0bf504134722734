//! What the cases are made of.

use naming::address::Address;
use naming::key::Key;
use naming::name::Name;
use naming::stamp::Stamp;
use std::test::Fail;

pub fn key(bytes: &[u8]) -> Result<Key, Fail> {
    Key::new(bytes).ok_or_else(|| Fail::new("no key"))
}

pub(crate) fn address(container: u8, bytes: &[u8]) -> Result<Address, Fail> {
    Ok(Address {
        container,
        key: key(bytes)?,
    })
}

pub fn stamp(sequence: u32, writer: u8) -> Result<Stamp, Fail> {
    Stamp::new(sequence, writer).ok_or_else(|| Fail::new("no such writer"))
}

pub fn name(bytes: &[u8]) -> Result<Name, Fail> {
    Name::from_bytes(bytes).ok_or_else(|| Fail::new("too long for a name"))
}
