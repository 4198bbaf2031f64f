//! The commands that speak over links, and the top call.
#![tactic(auto)]

mod attach;
mod live;
mod top;

pub use live::run_live;
pub use top::run;
