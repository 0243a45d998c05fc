//! A disk that lists its calls, for a host that makes them: a library that makes no call of the system by itself commits
//! by it.
#![tactic(auto)]

mod call;
mod host_file;
mod relay_disk;

pub use call::Call;
pub use host_file::HostFile;
pub use relay_disk::RelayDisk;
