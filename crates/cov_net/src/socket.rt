//! A link over a WebSocket.
ghost use Rattle.std.specs.Prelude.{◌≡◌, ◌≤◌, false, not, ◌==◌, Err};
ghost use Rattle.cov_io.specs.Causes.{Rose};
ghost use Rattle.cov_net.specs.Reads.{heard_of, link_fault};
ghost use Rattle.cov_net.specs.Real.{link_closed, link_faults, untold_link};

use cov_io::{Got, Link, LinkFault};
use std::alloc::Global;
use std::io::{Read, Write};
use tungstenite::{Error, MaskKeys, Message, Utf8Bytes, WebSocket};
use websocket::error::ProtocolError;

/// How many messages one `recv` reads at most. Where each was a ping or a pong, the last of them is a fault.
const CONTROLS: u32 = 1_000_000;

/// A link over a WebSocket on any stream. It tells no content; each error raises its count.
///
/// It is closed after the peer's close message, or where the stream ends. Pings and pongs are passed over, but for the
/// 1,000,000th in a row within one call, which is a fault, as a binary message is.
#[derive(Drop)]
pub struct SocketLink<S, K> {
    socket: WebSocket<S, K>,
    closed: bool,
    faults: u64,
}

/// What was read of a socket.
#[derive(Debug, Drop)]
pub(crate) enum Heard {
    Text(Utf8Bytes),
    Control,
    Closed,
    Fault(LinkFault),
}

impl<S: Drop, K: Drop> SocketLink<S, K> {
    /// A link over a socket whose handshake is done.
    pub fn new(socket: WebSocket<S, K>) -> SocketLink<S, K>
        ensures closed { link_closed result ≡ false }
        ensures faults { link_faults result ≡ 0 }
    {
        SocketLink {
            socket,
            closed: false,
            faults: 0,
        }
    }

    /// Whether a `recv` has answered that the link is closed.
    pub(crate) fn is_closed(&self) -> bool
        ensures { result ≡ link_closed self.now }
    {
        self.closed
    }

    // Counts a fault, and hands it on.
    fn failed(&mut self, fault: LinkFault) -> LinkFault
        ensures same { result ≡ fault }
        ensures rose { Rose (link_faults self.old) (link_faults self.new) }
        ensures later { link_faults self.old ≤ link_faults self.new }
        ensures closed { link_closed self.new ≡ link_closed self.old }
    {
        let faults = self.faults;
        self.faults = faults.saturating_add(1);
        fault
    }

    /// Whether the link has failed.
    pub(crate) fn has_failed(&self) -> bool
        ensures { result ≡ not (link_faults self.now == 0) }
    {
        self.faults != 0
    }
}

impl<S: Read + Write + Drop, K: MaskKeys + Drop> Link for SocketLink<S, K> {
    ghost state = { λ s. untold_link s.closed };

    ghost faults = { λ s. s.faults };

    fn send(&mut self, alloc: Global, text: &str) -> Result<(), LinkFault> {
        match send_text(&mut self.socket, alloc, text) {
            Ok(()) => Ok(()),
            Err(fault) => Err(self.failed(fault)),
        }
    }

    fn recv(&mut self, alloc: Global) -> Result<Got, LinkFault> {
        match next_text(&mut self.socket, alloc, self.closed) {
            Ok(Got::Text(text)) => Ok(Got::Text(text)),
            Ok(Got::Closed) => {
                self.closed = true;
                Ok(Got::Closed)
            }
            Err(fault) => Err(self.failed(fault)),
        }
    }
}

fn send_text<S: Read + Write + Drop, K: MaskKeys + Drop>(
    socket: &mut WebSocket<S, K>,
    alloc: Global,
    text: &str,
) -> Result<(), LinkFault> {
    let message = Message::text(alloc, text)?;
    socket.send(message).map_err(fault_of)
}

// The next text, or that no more comes, as where that is known already.
fn next_text<S: Read + Write + Drop, K: MaskKeys + Drop>(
    socket: &mut WebSocket<S, K>,
    alloc: Global,
    closed: bool,
) -> Result<Got, LinkFault> {
    if closed {
        return Ok(Got::Closed);
    }
    for _ in 0..CONTROLS {
        match meaning_of(socket.read()) {
            Heard::Text(text) => return Ok(Got::Text(String::from_str(alloc, text.as_str())?)),
            Heard::Closed => return Ok(Got::Closed),
            Heard::Fault(fault) => return Err(fault),
            Heard::Control => {}
        }
    }
    Err(LinkFault::Failed)
}

// What a read means.
fn meaning_of(read: Result<Message, Error>) -> Heard
    ensures { result ≡ heard_of read }
{
    match read {
        Ok(Message::Text(text)) => Heard::Text(text),
        Ok(Message::Ping(_)) | Ok(Message::Pong(_)) => Heard::Control,
        Ok(Message::Binary(_)) => Heard::Fault(LinkFault::Failed),
        Ok(Message::Close(_)) => Heard::Closed,
        Err(error) => ended(error),
    }
}

// What an error of a read means: the end of the stream, or a fault.
fn ended(error: Error) -> Heard
    ensures { result ≡ heard_of (Err error) }
{
    match error {
        Error::ConnectionClosed | Error::Protocol(ProtocolError::ResetWithoutClosingHandshake) =>
            Heard::Closed,
        error => Heard::Fault(fault_of(error)),
    }
}

// What an error of a socket means for its link.
pub(crate) fn fault_of(error: Error) -> LinkFault
    ensures { result ≡ link_fault error }
{
    match error {
        Error::OutOfMemory => LinkFault::NoMemory,
        _ => LinkFault::Failed,
    }
}
