//! The words of a command line: which command they ask for, and of what.
#![tactic(auto)]

mod asking;
mod child;
mod collect;
mod command;
mod files;
mod live;
mod make;
mod options;
mod reading;

pub use child::read_run;
pub use collect::{group_of, read_collect};
pub use command::{Collect, Command, Form, Group, Live, Run, WordsFault};
pub use cov_percent::Percent;
pub use live::read_live;
pub use reading::read_words;
