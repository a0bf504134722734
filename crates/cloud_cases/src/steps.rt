//! Calls at a cloud under test, each with what it must answer.
use cloud::interface::Cloud;
use refusal::Cause;
use std::alloc::AllocGlobal;
use std::process::Abort;
use std::test::*;

// What a part or a place holds before a call writes into it.
const UNTOUCHED: u8 = 0xEE;

/// A cloud under test. Each method makes one call, and checks the answer and what is written. Values are of equal bytes.
#[derive(Drop)]
pub(crate) struct Tested<'a, R: Abort + AllocGlobal, C: Cloud> {
    pub(crate) rt: &'a R,
    pub(crate) cloud: C,
}

impl<'a, R: Abort + AllocGlobal, C: Cloud> Tested<'a, R, C> {
    /// Puts a value of this length, made of this byte.
    pub(crate) fn put(
        &mut self,
        name: &[u8],
        length: usize,
        byte: u8,
        answer: Result<(), Cause>,
    ) -> Result<(), Fail> {
        let value = vec![in self.rt.alloc(); byte; length]?;
        assert_eq!(self.rt; self.cloud.put(name, value.as_slice()), answer);
        Ok(())
    }

    /// Gets into a part of this length. The answer is the length and the byte of the value that is got.
    pub(crate) fn get(
        &mut self,
        name: &[u8],
        room: usize,
        answer: Result<(usize, u8), Cause>,
    ) -> Result<(), Fail> {
        let (length, byte) = answer.unwrap_or((0, UNTOUCHED));
        let mut part = vec![in self.rt.alloc(); UNTOUCHED; room]?;
        let value = vec![in self.rt.alloc(); byte; length]?;
        assert_eq!(self.rt;
            self.cloud.get(name, part.as_mut_slice()),
            answer.map(|(length, _)| length)
        );
        self.check_front(part.as_slice(), value.as_slice())
    }

    pub(crate) fn drop(&mut self, name: &[u8], answer: Result<(), Cause>) -> Result<(), Fail> {
        assert_eq!(self.rt; self.cloud.drop(name), answer);
        Ok(())
    }

    /// Asks for the name above these bytes.
    pub(crate) fn next(
        &mut self,
        above: &[u8],
        answer: Result<Option<&[u8]>, Cause>,
    ) -> Result<(), Fail> {
        let mut place = [UNTOUCHED; 39];
        let length = answer.map(|name| name.map(|name| name.len()));
        assert_eq!(self.rt; self.cloud.next(above, &mut place), length);
        self.check_front(&place, answer.unwrap_or(None).unwrap_or(b""))
    }

    // The first bytes are these, and the rest is as it was.
    fn check_front(&self, part: &[u8], front: &[u8]) -> Result<(), Fail> {
        assert!(self.rt; part.starts_with(front));
        assert!(self.rt; part.iter().skip(front.len()).all(|byte| *byte == UNTOUCHED));
        Ok(())
    }
}
