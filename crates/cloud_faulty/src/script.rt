//! The faults that calls use up, one each.

ghost use Rattle.std.specs.Prelude.{◌≡◌, ◌≤◌, length};
ghost use Rattle.cloud_faulty.specs.Faults.{first, script_of, UsedUp};

use crate::fault::Fault;
use arrayvec::ArrayVec;
use std::marker::Model;

const MOST_CODES: usize = 32;

// The faults in the order of the calls; the first `used` of them are used up.
#[derive(Drop)]
pub(crate) struct Script {
    faults: ArrayVec<Fault, MOST_CODES>,
    used: usize,
}

impl Model for Script {
    ghost use Rattle.std.specs.Prelude.{◌≤◌, List, length, drop};
    ghost use Rattle.cloud_faulty.specs.declared.fault.Fault.{Fault};

    ghost Value = { List Fault };

    // The faults that are left.
    ghost view = { λ s. drop s.used s.faults.items };

    ghost invariant = { λ s. s.used ≤ length s.faults.items };
}

impl Script {
    // The script of these codes; none where they are more than 32 or one is no fault's.
    pub(crate) fn read(codes: &[u8]) -> Option<Script>
        ensures { result ≡ script_of codes.now }
    {
        if codes.len() > MOST_CODES {
            return None;
        }
        let mut faults = ArrayVec::new();
        for code in codes {
            faults.push(Fault::try_from(*code).ok()?);
        }
        Some(Script { faults, used: 0 })
    }

    // Uses up the next fault. After the last each call passes.
    pub(crate) fn take(&mut self) -> Fault
        ensures fault { result ≡ first self.old }
        ensures after { UsedUp self.old self.new }
    {
        let Some(&fault) = self.faults.get(self.used) else {
            return Fault::default();
        };
        self.used += 1;
        fault
    }

    // How many faults are left, at most 32.
    pub(crate) fn left(&self) -> usize
        ensures value { result ≡ length self.now }
        ensures few { result ≤ 32 }
    {
        self.faults.len() - self.used
    }
}
