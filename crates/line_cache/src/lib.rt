//! The cache of one processor of the split machine: which lines it holds, and by slot the bytes of each, the permissions of
//! its page and the memory that owns its region; with what it counts.
//!
//! Contracts see a [`LineCache`] as a record of the tags of `cache_tags`, what is kept by slot, and the counts
//! (`specs/Cached`), and each call is a function on that. That the calls are what the caches' rule says of touches, stores,
//! write-backs and removals is the law `calls_follow_the_rule`. Only `LineCache::new` takes memory, and a hit moves no byte
//! of a line. The line of the last fetch is at hand: a fetch from it is a look-up that asks no list.
#![tactic(auto)]

mod cache;
mod counting;
mod hand;
mod laws;
mod line;

pub use cache::LineCache;
pub use laws::calls_follow_the_rule;
pub use line::Line;

#[cfg(test)]
mod tests;
