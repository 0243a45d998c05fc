//! The engine of `serve`: one durable vector, offered to many clients at once, each with a stream of requests and one of
//! answers.
#![tactic(auto)]

mod away;
mod client;
mod fault;
mod growing;
mod homing;
mod reading;
mod refusal;
mod reply;
mod request;
mod serving;
mod starting;
mod talking;
mod telling;

pub use client::Pipes;
pub use fault::ServeFault;
pub use refusal::RequestRefusal;
pub use reply::{Numbers, Reply};
pub use request::{ClientRequest, HEAD_LEN, Head};
pub use serving::{Served, serve};
pub use talking::{TalkEnd, talk};
