//! A directory of 1 to 64 places, in memory that is handed in. It is made empty, and no call at it allocates.
#![tactic(auto)]

mod answer;
pub mod keyed_entry;
mod lookup;
pub mod table;
