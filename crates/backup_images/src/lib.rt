//! The images of pages at storage, from which a memory that was lost gets its pages back.
//!
//! Contracts see [`Images`] as an append-only list of segments ([`Seg`]); the images are what the segments make of none
//! (`images_in` of `specs/Segments`), and lego_msg's functions say what each call makes of them. Where the segments weigh more
//! than 8192 bytes an image and a MiB, the list becomes one segment for each region that has images.
#![tactic(auto)]

mod images;
mod laws;
mod page;
mod pages;
mod regions;
mod segment;
mod weight;

pub use images::Images;
pub use laws::{
    a_batch_applied_twice_gives_the_images_of_once, compacted_lists_are_light,
    compacted_lists_keep_their_images,
};
pub use segment::Seg;

#[cfg(test)]
mod tests;
