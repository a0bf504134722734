//! Cases of byte strings, keys, stamps, names, and of the next name and key. All of them are tests.
#![tactic(auto)]

#[cfg(test)]
mod byte_cases;
#[cfg(test)]
mod fixed_cases;
#[cfg(test)]
mod key_cases;
#[cfg(test)]
mod made;
#[cfg(test)]
mod name_cases;
#[cfg(test)]
mod next_cases;
#[cfg(test)]
mod stamp_cases;
