//! What holds of every sound and empty cloud, whatever its kind.
use crate::steps::Tested;
use cloud::interface::Cloud;
use refusal::Cause;
use std::alloc::AllocGlobal;
use std::process::Abort;
use std::test::*;

const NAME_39: &[u8; 39] = b"nnnnnnnnnnnnnnnnnnnnnnnnnnnnnnnnnnnnnnn";

const NAME_40: &[u8; 40] = b"nnnnnnnnnnnnnnnnnnnnnnnnnnnnnnnnnnnnnnnn";

impl<'a, R: Abort + AllocGlobal, C: Cloud> Tested<'a, R, C> {
    /// All the cases, at a cloud of so many places.
    pub(crate) fn all_cases(&mut self, places: u8) -> Result<(), Fail> {
        self.fill(places)?;
        self.fill(places)?;
        if places >= 2 {
            self.limits(NAME_39, NAME_40)?;
            self.empty_name()?;
            self.put_again_and_again()?;
        }
        Ok(())
    }

    // The longest name and value, and one byte more; parts one byte short, that just fit, and longer.
    fn limits(&mut self, longest: &[u8], too_long: &[u8]) -> Result<(), Fail> {
        self.put(too_long, 1, 5, Err(Cause::TooLong))?;
        self.put(longest, 1025, 5, Err(Cause::TooLong))?;
        self.put(too_long, 1025, 5, Err(Cause::TooLong))?;
        self.put(longest, 1024, 5, Ok(()))?;
        self.get(longest, 1023, Err(Cause::TooLong))?;
        self.get(longest, 1024, Ok((1024, 5)))?;
        self.get(longest, 1030, Ok((1024, 5)))?;
        self.get(too_long, 1024, Err(Cause::NotHeld))?;
        self.next(b"", Ok(Some(longest)))?;
        self.next(longest, Ok(None))?;
        self.next(too_long, Ok(None))?;
        self.drop(too_long, Err(Cause::NotHeld))?;
        self.drop(longest, Ok(()))
    }

    // The shortest name and value. The empty name is above nothing, so next does not give it.
    fn empty_name(&mut self) -> Result<(), Fail> {
        self.get(b"", 0, Err(Cause::NotHeld))?;
        self.put(b"", 0, 5, Ok(()))?;
        self.get(b"", 0, Ok((0, 5)))?;
        self.get(b"", 3, Ok((0, 5)))?;
        self.next(b"", Ok(None))?;
        self.drop(b"", Ok(()))
    }

    // Fills the cloud to its last place and tries one past it, replaces each value, walks the names, and empties it.
    fn fill(&mut self, places: u8) -> Result<(), Fail> {
        for i in 0..places {
            self.put(&[7, i], 1024, i, Ok(()))?;
        }
        self.one_past(&[7, places])?;
        for i in 0..places {
            self.replace(&[7, i], i)?;
        }
        self.next(b"", Ok(Some(&[7, 0])))?;
        for i in 1..places {
            self.next(&[7, i - 1], Ok(Some(&[7, i])))?;
        }
        for i in 0..places {
            self.drop(&[7, i], Ok(()))?;
            self.drop(&[7, i], Err(Cause::NotHeld))?;
        }
        self.next(b"", Ok(None))
    }

    // A new name at a full cloud.
    fn one_past(&mut self, name: &[u8]) -> Result<(), Fail> {
        self.put(name, 1, 1, Err(Cause::Full))?;
        self.get(name, 9, Err(Cause::NotHeld))?;
        self.drop(name, Err(Cause::NotHeld))?;
        self.next(name, Ok(None))
    }

    fn replace(&mut self, name: &[u8], i: u8) -> Result<(), Fail> {
        let byte = i ^ 0x55;
        self.get(name, 1030, Ok((1024, i)))?;
        self.put(name, 3, byte, Ok(()))?;
        self.get(name, 3, Ok((3, byte)))
    }

    // Puts over and over, so that a log closes up many times.
    fn put_again_and_again(&mut self) -> Result<(), Fail> {
        self.put(b"stays", 700, 9, Ok(()))?;
        for byte in 0..200u8 {
            self.put(b"moves", 1024, byte, Ok(()))?;
            self.get(b"moves", 1024, Ok((1024, byte)))?;
            self.get(b"stays", 1024, Ok((700, 9)))?;
            if byte % 7 == 0 {
                self.drop(b"moves", Ok(()))?;
            }
        }
        self.drop(b"stays", Ok(()))
    }
}
