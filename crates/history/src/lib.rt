//! What a Locker promises, over every history of calls.
#![tactic(auto)]

ghost use Rattle.history.specs.Promises.{AnOpenedLockerKeepsItsPromises};

/// A Locker that was opened over an empty directory keeps the three promises, whatever calls come at it.
pub fn an_opened_locker_keeps_its_promises()
    ensures { AnOpenedLockerKeepsItsPromises }
{}
