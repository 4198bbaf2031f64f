//! The real links and net: WebSockets over TCP.
#![tactic(auto)]

mod socket;
mod tcp;

pub use socket::SocketLink;
pub use tcp::{LONGEST_MESSAGE, TcpNet};
