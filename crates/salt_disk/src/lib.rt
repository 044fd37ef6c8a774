//! A disk of three files: what its calls do, and what a crash may leave at each moment. `Disk` is the trait,
//! `MemDisk` a disk in memory, `MemStage` one for each node of a network, and `write_through` a write that is at rest once
//! it answers. The disk and its crashes are this project's own.
//!
//! ```
//! write_through(&mut disk, Part::Even, 0, b"one ping")?;
//! ```
#![tactic(auto)]

mod call;
mod disk;
mod fuse;
mod memory;
mod part;
mod stage;
mod through;

pub use disk::{Disk, DiskFault, Fuse, Part, Range};
pub use memory::MemDisk;
pub use stage::MemStage;
pub use through::write_through;
