//! What a caller may give.

ghost use Rattle.std.specs.Prelude.{◌≡◌, not, length, nat_le, nat_lt};
ghost use Rattle.refusal.specs.declared.Refusal.TheVariants.{InvalidKey, ValueTooLong, UnknownCloud};
ghost use Rattle.naming.specs.Text.{valid_key};
ghost use Rattle.cloud.specs.Meaning.{longest_value};
ghost use Rattle.protocol.specs.Steps.{or_refused};
ghost use Rattle.slots.specs.Values.{answered, when};
ghost use Rattle.locker.specs.Held.{address_parts};

use entry::live::LONGEST_VALUE;
use naming::address::Address;
use naming::key::Key;
use refusal::Refusal;
use slots::limits::Limits;

/// The address of these bytes in the container, where they are a key.
pub(crate) fn valid_address(container: u8, key: &[u8]) -> Result<Address, Refusal>
    ensures { answered address_parts result ≡ or_refused (when (not (valid_key key.now)) InvalidKey) (container, key.now) }
{
    let key = Key::new(key).ok_or(Refusal::InvalidKey)?;
    Ok(Address { container, key })
}

pub(crate) fn check_value(value: &[u8]) -> Result<(), Refusal>
    ensures { result ≡ or_refused (when (nat_lt longest_value (length value.now)) ValueTooLong) tt }
{
    if value.len() > LONGEST_VALUE {
        return Err(Refusal::ValueTooLong);
    }
    Ok(())
}

pub(crate) fn check_cloud(cloud: usize, limits: &Limits) -> Result<(), Refusal>
    ensures { result ≡ or_refused (when (nat_le limits.now.clouds cloud) UnknownCloud) tt }
{
    if cloud >= limits.clouds() {
        return Err(Refusal::UnknownCloud);
    }
    Ok(())
}
