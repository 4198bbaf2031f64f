//! Snapshots in JSON: from a value to a snapshot, and back; and the messages of the Profiler domain.
#![tactic(auto)]

mod members;
mod message;
mod reply;
mod request;
mod snapshot;
mod writing;

pub use cov_model::{Entry, Field, Place, ShapeFault, Snapshot};
pub use message::{Message, message_of};
pub use reply::{Reply, reply_text};
pub use request::{Body, Command, ErrorCode, Flags, Request, request_of, request_text};
pub use snapshot::snapshot_of;
pub use writing::scripts_value;
