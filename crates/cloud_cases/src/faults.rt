//! Every code of the fault-injecting layer, at every call.
use crate::steps::Tested;
use cloud::interface::Cloud;
use cloud_faulty::fault::{Fault, UnknownFault};
use cloud_faulty::faulty::FaultyCloud;
use cloud_fixed::fixed::FixedCloud;
use refusal::{Cause, Refusal};
use std::alloc::AllocGlobal;
use std::process::Abort;
use std::test::*;

// A cloud that holds the name `a` with the bytes 8 8.
fn below(rt: &(impl Abort + AllocGlobal)) -> Result<FixedCloud, Fail> {
    let memory = Vec::with_capacity(rt.alloc(), 3)?;
    let cloud = FixedCloud::new(memory, 3).map_err(|rejected| rejected.refusal)?;
    let mut tested = Tested { rt, cloud };
    tested.put(b"a", 2, 8, Ok(()))?;
    Ok(tested.cloud)
}

// The same under a script, of which all codes are left.
fn scripted<'a, R: Abort + AllocGlobal>(
    rt: &'a R,
    codes: &[u8],
) -> Result<Tested<'a, R, FaultyCloud<FixedCloud>>, Fail> {
    let cloud = FaultyCloud::new(below(rt)?, codes).map_err(|rejected| rejected.refusal)?;
    assert_eq!(rt; cloud.left(), codes.len());
    Ok(Tested { rt, cloud })
}

// A refusal hands the cloud back as it was.
fn check_refused(rt: &(impl Abort + AllocGlobal), codes: &[u8]) -> Result<(), Fail> {
    let Err(rejected) = FaultyCloud::new(below(rt)?, codes) else {
        return Err(Fail::new("not refused"));
    };
    assert_eq!(rt; rejected.refusal, Refusal::UnsupportedStorage);
    let mut tested = Tested {
        rt,
        cloud: rejected.given,
    };
    tested.get(b"a", 4, Ok((2, 8)))
}

#[test]
fn codes_of_faults(rt: HostRuntime) {
    assert_eq!(rt; Fault::try_from(0), Ok(Fault::Pass));
    assert_eq!(rt; Fault::try_from(1), Ok(Fault::Silence));
    assert_eq!(rt; Fault::try_from(2), Ok(Fault::FalseSuccess));
    assert_eq!(rt; Fault::try_from(3), Ok(Fault::FlippedBit));
    assert_eq!(rt; Fault::try_from(4), Err(UnknownFault(4)));
}

#[test]
fn codes_pass(rt: HostRuntime) -> Result<(), Fail> {
    let mut tested = scripted(&rt, &[0, 0, 0, 0])?;
    tested.put(b"b", 1, 1, Ok(()))?;
    tested.get(b"a", 4, Ok((2, 8)))?;
    tested.next(b"a", Ok(Some(b"b")))?;
    tested.drop(b"a", Ok(()))?;
    assert_eq!(rt; tested.cloud.left(), 0);
    tested.get(b"b", 4, Ok((1, 1)))?;
    tested.get(b"a", 4, Err(Cause::NotHeld))
}

#[test]
fn codes_are_silent(rt: HostRuntime) -> Result<(), Fail> {
    let mut tested = scripted(&rt, &[1, 1, 1, 1])?;
    tested.put(b"b", 1, 1, Err(Cause::Silent))?;
    tested.get(b"a", 4, Err(Cause::Silent))?;
    tested.drop(b"a", Err(Cause::Silent))?;
    tested.next(b"", Err(Cause::Silent))?;
    assert_eq!(rt; tested.cloud.left(), 0);
    tested.get(b"a", 4, Ok((2, 8)))?;
    tested.get(b"b", 4, Err(Cause::NotHeld))
}

#[test]
fn codes_claim_success(rt: HostRuntime) -> Result<(), Fail> {
    let mut tested = scripted(&rt, &[2, 2, 2, 2])?;
    tested.put(b"b", 1, 1, Ok(()))?;
    tested.get(b"a", 4, Ok((0, 0)))?;
    tested.drop(b"a", Ok(()))?;
    tested.next(b"", Ok(None))?;
    assert_eq!(rt; tested.cloud.left(), 0);
    tested.get(b"a", 4, Ok((2, 8)))?;
    tested.get(b"b", 4, Err(Cause::NotHeld))
}

// A refused get and one of no bytes have no byte to flip.
#[test]
fn codes_flip_a_bit(rt: HostRuntime) -> Result<(), Fail> {
    let mut tested = scripted(&rt, &[3, 3, 3, 3, 3, 3])?;
    tested.get(b"b", 4, Err(Cause::NotHeld))?;
    tested.put(b"b", 0, 0, Ok(()))?;
    tested.get(b"b", 4, Ok((0, 0)))?;
    tested.next(b"a", Ok(Some(b"b")))?;
    tested.drop(b"b", Ok(()))?;
    tested.get(b"a", 1, Err(Cause::TooLong))?;
    assert_eq!(rt; tested.cloud.left(), 0);
    tested.get(b"a", 4, Ok((2, 8)))?;
    tested.get(b"b", 4, Err(Cause::NotHeld))?;
    let mut tested = scripted(&rt, &[3])?;
    let mut part = [0xEE; 4];
    assert_eq!(rt; tested.cloud.get(b"a", &mut part), Ok(2));
    assert_eq!(rt; part, [9, 8, 0xEE, 0xEE]);
    Ok(())
}

#[test]
fn scripts_at_their_limits(rt: HostRuntime) -> Result<(), Fail> {
    assert_eq!(rt; scripted(&rt, &[3; 32])?.cloud.left(), 32);
    assert_eq!(rt; scripted(&rt, &[])?.cloud.left(), 0);
    check_refused(&rt, &[0; 33])?;
    check_refused(&rt, &[0, 4])
}
