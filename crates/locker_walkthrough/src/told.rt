//! What the steps print.
use naming::stamp::Stamp;
use refusal::Refusal;
use std::fmt;

/// A heading, and bytes in hexadecimal.
pub(super) fn hex(rt: &HostRuntime, heading: &str, bytes: &[u8]) -> anyhow::Result<()> {
    let text = hexadecimal::encode(rt.alloc(), bytes)?;
    println!(rt; "{heading}{text}")?;
    Ok(())
}

/// A stamp as it is printed.
#[derive(Drop)]
pub(super) struct Printed(pub(super) Stamp);

impl fmt::Display for Printed {
    fn fmt<W: fmt::Write>(&self, f: &mut fmt::Formatter<W>) -> fmt::Result {
        write!(f, "stamp ({},{})", self.0.sequence(), self.0.writer())
    }
}

/// A stamp, or the refusal.
pub(super) fn stamp(
    rt: &HostRuntime,
    what: &str,
    answer: Result<Stamp, Refusal>,
) -> anyhow::Result<()> {
    if let Some(stamp) = accepted(rt, what, answer)? {
        let stamp = Printed(stamp);
        println!(rt; "  {what}: {stamp}.")?;
    }
    Ok(())
}

/// A count of something, or the refusal.
pub(super) fn count(
    rt: &HostRuntime,
    what: &str,
    unit: &str,
    answer: Result<usize, Refusal>,
) -> anyhow::Result<()> {
    if let Some(count) = accepted(rt, what, answer)? {
        println!(rt; "  {what}: {count} {unit}.")?;
    }
    Ok(())
}

/// What a call answered; where it was refused, the refusal is printed.
pub(super) fn accepted<T>(
    rt: &HostRuntime,
    what: &str,
    answer: Result<T, Refusal>,
) -> anyhow::Result<Option<T>> {
    match answer {
        Ok(value) => Ok(Some(value)),
        Err(refusal) => {
            refused(rt, what, &refusal)?;
            Ok(None)
        }
    }
}

/// The refusal, with its number and what it carries.
pub(super) fn refused(rt: &HostRuntime, what: &str, refusal: &Refusal) -> anyhow::Result<()> {
    println!(rt; "  {what}: {refusal}.")?;
    Ok(())
}
