//! Maps from byte strings, as contracts speak of them: what a cloud holds by name, and a directory by key.
//! There is no code here: the definitions are in specs/ and their laws in proofs/. The function below has the main
//! law as its contract.
#![tactic(auto)]

ghost use Rattle.bytemap.specs.Laws.{AMapIsWhatItFinds};

/// Two maps that find the same are the same, and what is put is found, what is removed is not, and no other key is
/// touched.
pub fn a_map_is_what_it_finds()
    ensures { AMapIsWhatItFinds }
{}
