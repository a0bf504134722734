//! Cases of journals and their records. All of them are tests.
#![tactic(auto)]

#[cfg(test)]
mod close_up_cases;
#[cfg(test)]
mod damage_cases;
#[cfg(test)]
mod made;
#[cfg(test)]
mod open_cases;
#[cfg(test)]
mod record_cases;
