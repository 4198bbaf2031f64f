//! Links of a net that are made together, and handed back together.
#![tactic(auto)]

mod back;
mod making;

pub use back::hang_up_all;
pub use making::{accept_all, dial_all};
