//! A net over TCP.
ghost use Rattle.std.specs.Prelude.{◌≡◌, ◌≤◌, None};
ghost use Rattle.std.specs.IoError.{error_kind};
ghost use Rattle.cov_io.specs.Causes.{Rose};
ghost use Rattle.cov_net.specs.Reads.{link_fault_of_io};
ghost use Rattle.cov_net.specs.Real.{untold_net, net_port, net_closed, net_faults};

use crate::SocketLink;
use crate::socket::fault_of;
use cov_io::{LinkFault, Net, counted};
use std::alloc::{AllocError, Global};
use std::io;
use std::io::ErrorKind;
use std::net::{Ipv4Addr, Net as Sockets, OpenListener, SocketAddr, SocketAddrV4, TcpStream};
use std::random::RandomSource;
use tungstenite::handshake::HandshakeError;
use tungstenite::handshake::client::{request_of, start};
use tungstenite::{RandomKeys, Role, WebSocket, WebSocketConfig, accept};

/// The greatest message that is taken, in bytes: no longer text is read anywhere. A longer one is a fault.
pub const LONGEST_MESSAGE: usize = 134_217_728;

/// How many connections one `accept` looks at. Where each had no handshake, the last of them is a fault.
const CONNECTIONS: u32 = 1_000_000;

/// A net over TCP. It listens on 127.0.0.1 alone, tells no content, and raises its count at each error. A peer that connects without
/// a handshake is passed over, but for the 1,000,000th in a row within one call, which is a fault. One that is silent makes it wait.
#[derive(Drop)]
pub struct TcpNet<R: Sockets + Drop> {
    rt: R,
    listener: Option<R::Listener>,
    port: Option<u16>,
    closed: u64,
    faults: u64,
}

impl<R: Sockets + Drop> TcpNet<R> {
    /// A net that listens nowhere yet.
    pub fn new(rt: R) -> TcpNet<R>
        ensures port { net_port result ≡ None }
        ensures closed { net_closed result ≡ 0 }
        ensures faults { net_faults result ≡ 0 }
    {
        TcpNet {
            rt,
            listener: None,
            port: None,
            closed: 0,
            faults: 0,
        }
    }

    // Counts a fault, and hands it on.
    fn failed(&mut self, fault: LinkFault) -> LinkFault
        ensures same { result ≡ fault }
        ensures rose { Rose (net_faults self.old) (net_faults self.new) }
        ensures later { net_faults self.old ≤ net_faults self.new }
        ensures port { net_port self.new ≡ net_port self.old }
        ensures closed { net_closed self.new ≡ net_closed self.old }
    {
        let faults = self.faults;
        self.faults = faults.saturating_add(1);
        fault
    }
}

impl<R: Sockets + RandomSource + Copy + Drop> Net for TcpNet<R> {
    type Link = SocketLink<R::Stream, RandomKeys<R>>;

    ghost state = { λ s. untold_net s.port s.closed };

    ghost faults = { λ s. s.faults };

    fn listen(&mut self, port: u16) -> Result<u16, LinkFault> {
        match listening(&self.rt, port) {
            Ok((listener, port)) => {
                self.listener = Some(listener);
                self.port = Some(port);
                Ok(port)
            }
            Err(error) => Err(self.failed(fault_of_io(error))),
        }
    }

    fn accept(&mut self, alloc: Global) -> Result<Self::Link, LinkFault> {
        match accepted(&self.rt, alloc, &self.listener) {
            Ok(socket) => Ok(SocketLink::new(socket)),
            Err(fault) => Err(self.failed(fault)),
        }
    }

    fn dial(&mut self, alloc: Global, place: &str) -> Result<Self::Link, LinkFault> {
        match dialled(&self.rt, alloc, place) {
            Ok(socket) => Ok(SocketLink::new(socket)),
            Err(fault) => Err(self.failed(fault)),
        }
    }

    fn hang_up(&mut self, link: Self::Link) -> Result<(), AllocError> {
        self.faults = counted(link.has_failed(), self.faults);
        self.closed = counted(link.is_closed(), self.closed);
        Ok(())
    }
}

// Listens on a port of this machine alone, and tells the port in use.
fn listening<R: Sockets>(rt: &R, port: u16) -> io::Result<(R::Listener, u16)> {
    let place = SocketAddrV4::new(Ipv4Addr::LOCALHOST, port);
    let listener = rt.bind(SocketAddr::V4(place))?;
    let port = listener.local_addr()?.port();
    Ok((listener, port))
}

// The next connection whose handshake is done. Another one is dropped.
fn accepted<R: Sockets + RandomSource + Copy>(
    rt: &R,
    alloc: Global,
    listener: &Option<R::Listener>,
) -> Result<WebSocket<R::Stream, RandomKeys<R>>, LinkFault> {
    let Some(listener) = listener else {
        return Err(LinkFault::Failed);
    };
    for _ in 0..CONNECTIONS {
        let (stream, _) = listener.accept().map_err(fault_of_io)?;
        match shaken(rt, alloc, stream) {
            Ok(socket) => return Ok(socket),
            Err(LinkFault::NoMemory) => return Err(LinkFault::NoMemory),
            Err(LinkFault::Failed) => {}
        }
    }
    Err(LinkFault::Failed)
}

// The handshake with a peer that has connected.
fn shaken<R: Sockets + RandomSource + Copy>(
    rt: &R,
    alloc: Global,
    stream: R::Stream,
) -> Result<WebSocket<R::Stream, RandomKeys<R>>, LinkFault> {
    match accept(alloc, stream) {
        Ok(socket) => Ok(WebSocket::from_raw_socket(
            alloc,
            socket.into_inner(),
            RandomKeys::new(*rt),
            Role::Server,
            Some(limits()),
        )),
        Err(HandshakeError::Failure(error)) => Err(fault_of(error)),
        Err(HandshakeError::Interrupted(_)) => Err(LinkFault::Failed),
    }
}

// A connection to `HOST:PORT/PATH`, its handshake done.
fn dialled<R: Sockets + RandomSource + Copy>(
    rt: &R,
    alloc: Global,
    place: &str,
) -> Result<WebSocket<R::Stream, RandomKeys<R>>, LinkFault> {
    let uri = format!(in alloc; "ws://{place}")?;
    let request = request_of(alloc, uri.as_str()).map_err(fault_of)?;
    let host = match place.split_once('/') {
        Some((host, _)) => host,
        None => place,
    };
    let stream = TcpStream::connect(rt, host).map_err(fault_of_io)?;
    let mut nonce = [0; 16];
    rt.fill_bytes(&mut nonce).map_err(fault_of_io)?;
    let keys = RandomKeys::new(*rt);
    let begun = start(alloc, nonce, keys, request, stream, Some(limits())).map_err(fault_of)?;
    match begun.handshake() {
        Ok((socket, _)) => Ok(socket),
        Err(HandshakeError::Failure(error)) => Err(fault_of(error)),
        Err(HandshakeError::Interrupted(_)) => Err(LinkFault::Failed),
    }
}

// The limits of a connection: a message is sent as one frame.
fn limits() -> WebSocketConfig {
    WebSocketConfig::default()
        .max_message_size(Some(LONGEST_MESSAGE))
        .max_frame_size(Some(LONGEST_MESSAGE))
}

// What an error of the system means for a net.
fn fault_of_io(error: io::Error) -> LinkFault
    ensures { result ≡ link_fault_of_io (error_kind error) }
{
    match error.kind() {
        ErrorKind::OutOfMemory => LinkFault::NoMemory,
        _ => LinkFault::Failed,
    }
}
