//! Cases of the crates below, with the answers that they must give, which the gate runs.
//!
//! Each answer is known from outside: from a manual, a standard, or by hand. The crates' own contracts say what they
//! answer; a case shows that a definition says what was meant. They are in a crate of their own, since a crate with
//! tests is proved twice, with them and without.
#![tactic(auto)]

#[cfg(test)]
mod areas;
#[cfg(test)]
mod descriptions;
#[cfg(test)]
mod files;
#[cfg(test)]
mod healing;
#[cfg(test)]
mod hi_file;
#[cfg(test)]
mod homes;
#[cfg(test)]
mod images;
#[cfg(test)]
mod instructions;
#[cfg(test)]
mod lists;
#[cfg(test)]
mod logs;
#[cfg(test)]
mod memory;
#[cfg(test)]
mod messages;
#[cfg(test)]
mod network;
#[cfg(test)]
mod objects;
#[cfg(test)]
mod owners;
#[cfg(test)]
mod processes;
#[cfg(test)]
mod programs;
#[cfg(test)]
mod reports;
#[cfg(test)]
mod stacks;
#[cfg(test)]
mod targets;
