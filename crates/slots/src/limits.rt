//! What is fixed at opening.

ghost use Rattle.std.specs.Prelude.{◌+◌, ◌*◌, ◌≤◌};

mod methods;

/// How many clouds the row has, 3 to 7, and how many of them may be unsound, 1 to 3 and fewer than half.
// No `impl Model`: clauses read the two numbers by name as they are, and a Locker's proofs the bounds.
#[derive(Clone, Copy)]
pub struct Limits {
    faults: u8,
    clouds: u8,
    ghost some: { 1 ≤ faults },
    ghost borne: { faults ≤ 3 },
    ghost least: { 3 ≤ clouds },
    ghost most: { clouds ≤ 7 },
    ghost majority: { 2 * faults + 1 ≤ clouds },
}
