//! What running threads and real files alone show, and one happy path for each call that no program makes.
#![tactic(auto)]

mod nought;

pub use nought::Nought;

#[cfg(test)]
mod tests;
