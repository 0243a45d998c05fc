//! Texts of floats where records are the numbers that have their bits: the numbers for floats, and floats for the numbers.
#![tactic(auto)]

mod decoding;
mod encoding;
mod float;

pub use decoding::Decoder;
pub use encoding::{Encoder, FloatLines, append_bits};
pub use float::FloatType;
