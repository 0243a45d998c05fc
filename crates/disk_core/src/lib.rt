//! A disk that may lose what was not synced, what a crash may leave of it, a disk over a real file, and two disks
//! for tests; and a file that another process writes (`Shared`).
#![tactic(auto)]

mod blow;
mod choice;
mod contents;
mod disk;
mod event;
mod extent;
mod fault;
mod file;
mod file_event;
mod fuse;
mod ghost_bytes;
mod image;
mod log;
mod ram;
mod shared;
mod shared_event;
mod shared_file;
mod shared_truth;
mod truth;

pub use blow::Blow;
pub use choice::{Choice, ImageLength, PendingBytes};
pub use disk::Disk;
pub use extent::Extent;
pub use fault::DiskFault;
pub use file::FileDisk;
pub use fuse::FuseDisk;
pub use image::is_crash_image;
pub use ram::RamDisk;
pub use shared::Shared;
pub use shared_file::SharedFile;
