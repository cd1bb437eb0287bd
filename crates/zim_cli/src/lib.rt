//! The command: which words are a job, and what a run does with it.
//!
//! [`run`] is the call that the program makes, and its contract is the theorem about the program:
//! how a run ends, what it leaves in the folder, and what the written files say of the model
//! (`specs/Headline.antt`, which leads to the rest). `zim_build` says what a model is and when a file is one.
#![tactic(auto)]

mod command;
mod ending;
mod jobs;
mod outputs;
mod printing;
mod status;
mod words;
mod write_file;

pub use command::run;
pub use ending::Ending;
pub use jobs::Job;
pub use status::{Status, exit_number};
pub use words::job;
