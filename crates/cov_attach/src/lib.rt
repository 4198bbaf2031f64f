//! Live sessions: the client's script driven over a link, and over many links at once.
#![tactic(auto)]

mod fault;
mod many;
mod places;
mod session;

pub use cov_session::PeerWhy;
pub use fault::{AttachAllFault, AttachFault};
pub use many::attach_all;
pub use places::{PlacesFault, attach_places};
pub use session::run_session;
