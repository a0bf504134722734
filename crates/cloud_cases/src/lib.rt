//! Cases of clouds and rows. All of them are tests; those that hold for every kind of cloud are one generic function.
#![tactic(auto)]

#[cfg(test)]
mod any_cloud;
#[cfg(test)]
mod faults;
#[cfg(test)]
mod kinds;
#[cfg(test)]
mod rows;
#[cfg(test)]
mod steps;
