//! The numbers of refusals and causes, and what they carry.
use refusal::{Cause, CloudFault, Refusal};
use std::test::Fail;

const FAULT: CloudFault = CloudFault {
    cloud: 2,
    cause: Cause::Silent,
};

#[test]
fn refusals_are_numbered_in_order(rt: HostRuntime) {
    let all = [
        Refusal::UnsupportedRow,
        Refusal::UnsupportedStorage,
        Refusal::CorruptJournal { offset: 8 },
        Refusal::UnknownParty,
        Refusal::InvalidKey,
        Refusal::ValueTooLong,
        Refusal::UnknownCloud,
        Refusal::SlotBusy,
        Refusal::SlotNotReady,
        Refusal::DifferentValue,
        Refusal::AlreadyStored,
        Refusal::TooFewStored,
        Refusal::CloudNotListed,
        Refusal::NoEntry,
        Refusal::SequenceExhausted,
        Refusal::DirectoryFull,
        Refusal::BufferTooShort,
        Refusal::CloudRefused(FAULT),
        Refusal::ValueMismatch,
    ];
    for (i, refusal) in all.iter().enumerate() {
        assert_eq!(rt; refusal.number() as usize, i + 1);
        assert_eq!(rt; refusal.offset().is_some(), i + 1 == 3);
        assert_eq!(rt; refusal.fault().is_some(), i + 1 == 18);
    }
}

#[test]
fn causes_are_numbered_in_order(rt: HostRuntime) {
    let all = [
        Cause::Full,
        Cause::TooLong,
        Cause::NotHeld,
        Cause::Silent,
        Cause::BadListing,
    ];
    for (i, cause) in all.iter().enumerate() {
        assert_eq!(rt; cause.number() as usize, i + 1);
    }
}

fn passed_up() -> Result<(), Refusal> {
    Err(FAULT)?;
    Ok(())
}

#[test]
fn a_fault_keeps_its_cloud_and_cause(rt: HostRuntime) {
    let refusal = Refusal::CloudRefused(FAULT);
    assert_eq!(rt; passed_up(), Err(refusal));
    assert_eq!(rt; refusal.number(), 18);
    assert_eq!(rt; refusal.fault(), Some(FAULT));
    assert_eq!(rt; FAULT.cause.number(), 4);
    assert_eq!(rt; Refusal::CorruptJournal { offset: 8 }.offset(), Some(8));
}

#[test]
fn refusals_are_told_with_what_they_carry(rt: HostRuntime) -> Result<(), Fail> {
    for (refusal, text) in [
        (Refusal::UnsupportedRow, "refused with 1"),
        (Refusal::CorruptJournal { offset: 8 }, "refused with 3 at 8"),
        (
            Refusal::CloudRefused(FAULT),
            "refused with 18, cloud 2, cause 4",
        ),
        (Refusal::ValueMismatch, "refused with 19"),
    ] {
        assert_eq!(rt; format!(in rt.alloc(); "{refusal}")?.as_str(), text);
    }
    assert_eq!(rt;
        format!(in rt.alloc(); "{FAULT}")?.as_str(),
        "cloud 2, cause 4"
    );
    assert_eq!(rt;
        format!(in rt.alloc(); "{}", Cause::Full)?.as_str(),
        "cause 1"
    );
    Ok(())
}
