#![tactic(auto)]
// Why a call is refused, and why a cloud refused what it was asked.
ghost use Rattle.std.specs.Prelude.{◌≡◌};
ghost use Rattle.refusal.specs.Numbers.{cause_number, refusal_fault, refusal_number, refusal_offset};

mod told;

// The types stand in one file: in a module of its own each would change the name by which clauses know it.

/// Why a cloud did not do what it was asked, by the number by which it is reported.
#[derive(Clone, Copy, Debug, PartialEq, Eq)]
pub enum Cause {
    /// A new name, and no place is free.
    Full = 1,
    /// The name or the value is too long, or the part to write into is too short.
    TooLong = 2,
    /// The name is not held.
    NotHeld = 3,
    /// The cloud did not answer.
    Silent = 4,
    /// Found by the Locker and not by the cloud: its names did not ascend, or there were too many.
    BadListing = 5,
}

impl Cause {
    /// The number by which the cause is reported.
    pub fn number(&self) -> u8
        ensures { result ≡ cause_number self.now }
    {
        *self as u8
    }
}

/// Which cloud of a row refused, counted from 0, and why.
#[derive(Clone, Copy, Debug, PartialEq, Eq)]
pub struct CloudFault {
    pub cloud: usize,
    pub cause: Cause,
}

/// The grounds of refusal, in the order in which they are checked.
#[derive(Clone, Copy, Debug, PartialEq, Eq)]
pub enum Refusal {
    // Opening.
    /// Faults to tolerate not 1 to 3, clouds not 3 to 7, or fewer than twice the faults and one.
    UnsupportedRow,
    /// Places outside their limits, memory too short, or a script that is too long or has an unknown code.
    UnsupportedStorage,
    /// Bytes that are no journal: the first bad record begins at this offset.
    CorruptJournal { offset: usize },
    // What the caller gave.
    /// The party is not 1 to 16.
    UnknownParty,
    /// The bytes are no key.
    InvalidKey,
    /// The value is above 1,024 bytes.
    ValueTooLong,
    /// The row has no cloud of this number.
    UnknownCloud,
    // What the party's slot is doing.
    /// A call that needs an idle slot found it busy.
    SlotBusy,
    /// A call that goes on with something found the slot doing something else.
    SlotNotReady,
    /// The value to store is not the one that was begun.
    DifferentValue,
    /// This cloud has acknowledged the value, or enough clouds have.
    AlreadyStored,
    /// Too few clouds have acknowledged the value.
    TooFewStored,
    /// The cloud is not in the entry's list.
    CloudNotListed,
    // What the directory has.
    /// The key has no entry, or no live one where the call needs it.
    NoEntry,
    /// The key's sequence is at its greatest.
    SequenceExhausted,
    /// The directory has no free place for a new key.
    DirectoryFull,
    // What there is room for.
    /// The buffer is too short for the result.
    BufferTooShort,
    // What the cloud did.
    /// A cloud refused: which, and why.
    CloudRefused(CloudFault),
    /// What the cloud gave has not the length or digest of the value that was saved.
    ValueMismatch,
}

impl Refusal {
    /// The number by which the refusal is reported.
    pub fn number(&self) -> u8
        ensures { result ≡ refusal_number self.now }
    {
        // Two grounds carry values, so that the number can't be the variant's own.
        match self {
            Refusal::UnsupportedRow => 1,
            Refusal::UnsupportedStorage => 2,
            Refusal::CorruptJournal { .. } => 3,
            Refusal::UnknownParty => 4,
            Refusal::InvalidKey => 5,
            Refusal::ValueTooLong => 6,
            Refusal::UnknownCloud => 7,
            Refusal::SlotBusy => 8,
            Refusal::SlotNotReady => 9,
            Refusal::DifferentValue => 10,
            Refusal::AlreadyStored => 11,
            Refusal::TooFewStored => 12,
            Refusal::CloudNotListed => 13,
            Refusal::NoEntry => 14,
            Refusal::SequenceExhausted => 15,
            Refusal::DirectoryFull => 16,
            Refusal::BufferTooShort => 17,
            Refusal::CloudRefused(_) => 18,
            Refusal::ValueMismatch => 19,
        }
    }

    /// Where the first bad record begins, in bytes from 0, of a corrupt journal.
    pub fn offset(&self) -> Option<usize>
        ensures { result ≡ refusal_offset self.now }
    {
        match self {
            Refusal::CorruptJournal { offset } => Some(*offset),
            _ => None,
        }
    }

    /// Which cloud refused, and why, where one did.
    pub fn fault(&self) -> Option<CloudFault>
        ensures { result ≡ refusal_fault self.now }
    {
        match self {
            Refusal::CloudRefused(fault) => Some(*fault),
            _ => None,
        }
    }
}

/// What a refused making hands back: why nothing was made, and what had been given to make it of, as it was.
/// It is told as the refusal.
#[derive(Drop)]
#[derive_where(Debug)]
pub struct Rejected<T> {
    pub refusal: Refusal,
    #[derive_where(skip(Debug))]
    pub given: T,
}
