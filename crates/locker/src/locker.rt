//! The Locker.

use digest::kind::DigestKind;
use directory::interface::Directory;
use row::interface::Row;
use slots::limits::Limits;
use slots::sixteen::Slots;
use std::marker::PhantomData;

mod cloud_sweeping;
mod deleting;
mod fetching;
mod key_listing;
mod opening;
mod saving;

/// A directory, a row of clouds, and what each of sixteen parties has under way.
// Its calls take party, container and key as the caller's raw numbers and bytes: each checks them, in the order of the grounds.
#[derive(Drop)]
pub struct Locker<D: Directory, R: Row, K: DigestKind> {
    directory: D,
    row: R,
    slots: Slots,
    limits: Limits,
    kind: PhantomData<K>,
}
