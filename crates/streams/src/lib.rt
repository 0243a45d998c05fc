//! What the program puts round its streams: input that is read ahead, leniently, as floats or in parts, output of floats, as JSON
//! or whose failure is kept, and who is told how far long work is.
#![tactic(auto)]

mod decoded;
mod in_json;
mod meter;
mod noting;
mod paced;
mod parted;
mod quiet;
mod turned;

pub use decoded::Decoded;
pub use in_json::{InJson, RecordText, Told};
pub use meter::{Behind, Meter};
pub use noting::Noting;
pub use paced::Paced;
pub use parted::Parted;
pub use quiet::ToldUnless;
pub use turned::{Turn, Turned};
