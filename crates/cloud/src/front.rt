//! A value on its way out of a cloud.

ghost use Rattle.std.specs.Prelude.{◌≡◌, length, Some};
ghost use Rattle.cloud.specs.Outcomes.{length_within, part_within};

use refusal::Cause;

/// Writes the value to the front of the part, and answers its length; refused where the part is too short.
pub fn write_value(value: &[u8], part: &mut [u8]) -> Result<usize, Cause>
    ensures answer { result ≡ length_within (Some value.now) (length part.old) }
    ensures written { part.new ≡ part_within (Some value.now) part.old }
{
    if value.len() > part.len() {
        return Err(Cause::TooLong);
    }
    part[..value.len()].copy_from_slice(value);
    Ok(value.len())
}
