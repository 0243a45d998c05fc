//! The engines of commands that read a file while another process writes it: the records of a vector at one moment of a
//! call; a follower that writes each of them once, when it is settled; and one that writes the events by which another
//! process keeps a copy.
#![tactic(auto)]

mod checking;
mod ended;
mod events;
mod following;
mod listing;
mod pause;
mod place;
mod reading;
mod searching;
mod telling;

pub use checking::check_beside;
pub use ended::{FollowEnd, LookEnd};
pub use events::{follow_events, follow_step};
pub use following::{Reached, follow, follow_on};
pub use listing::list_beside;
pub use pause::{Pause, Rest};
pub use place::{Place, read_place, write_place};
pub use reading::read_vector;
pub use searching::{count_beside, find_beside};
pub use telling::stat_beside;
