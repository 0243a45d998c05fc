//! Scripts of steps as lines, run over a disk in memory, and the lines of their answers.
#![tactic(auto)]

mod answer_line;
mod asked;
mod line_runs;
mod line_words;
mod playing;
mod script;
mod step_line;
mod verb;

pub use answer_line::write_answers;
pub use asked::Asked;
pub use playing::play;
pub use step_line::read_step_line;
