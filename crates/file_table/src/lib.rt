//! Files with names: what storage keeps for the file calls of Linux.
//!
//! Contracts see [`Files`] as the record `Files` of lego_msg: the bytes of each file by its number, the names in the order of
//! their bytes, the number of the next file, and how many blocks of 4096 bytes there are. Each call is an equation with a
//! definition there; what may be refused says exactly when, and then everything is as before (`specs/Outcomes`). A write costs
//! by the bytes that are written, whatever the size of the file.
//!
//! The two lists that it is made of, [`Contents`] and [`Names`], know of no blocks, and serve other stores of files, too.
#![tactic(auto)]

mod bytes;
mod contents;
mod fault;
mod files;
mod names;

pub use contents::Contents;
pub use fault::FileFault;
pub use files::Files;
pub use names::Names;
