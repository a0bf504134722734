//! What is timed.
use cloud::interface::Cloud;
use refusal::Cause;

/// The length of each value.
pub(super) const SIZE: usize = 1024;

/// Copies the value to each of the places, so many times over.
pub(super) fn copy_in(places: &mut [[u8; SIZE]], value: &[u8; SIZE], turns: u32) {
    for _ in 0..turns {
        for place in places.iter_mut() {
            place.copy_from_slice(value);
        }
    }
}

/// Copies the value of each of the places to the part, so many times over.
pub(super) fn copy_out(places: &[[u8; SIZE]], part: &mut [u8; SIZE], turns: u32) {
    for _ in 0..turns {
        for place in places {
            part.copy_from_slice(place);
        }
    }
}

/// Puts the value under the first names, so many times over.
pub(super) fn put_all<C: Cloud>(
    cloud: &mut C,
    names: u8,
    value: &[u8],
    turns: u32,
) -> Result<(), Cause> {
    call_all(names, turns, |name| cloud.put(name, value))
}

/// Gets the values of the first names, so many times over.
pub(super) fn get_all<C: Cloud>(
    cloud: &mut C,
    names: u8,
    part: &mut [u8],
    turns: u32,
) -> Result<(), Cause> {
    call_all(names, turns, |name| cloud.get(name, part).map(|_| ()))
}

// Makes the call with each of the first names, so many times over.
fn call_all<F: FnMut(&[u8]) -> Result<(), Cause>>(
    names: u8,
    turns: u32,
    mut call: F,
) -> Result<(), Cause>
    requires { F.IsAlwaysCallable call }
{
    for _ in 0..turns {
        for i in 0..names {
            call(&[i; 17])?;
        }
    }
    Ok(())
}
