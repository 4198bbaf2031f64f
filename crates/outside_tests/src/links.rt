//! Links over known bytes, and over TCP.
use cov_io::{Got, Link, LinkFault, Net};
use cov_net::{SocketLink, TcpNet};
use std::alloc::Global;
use std::io::Write;
use std::net::{Net as Sockets, TcpStream};
use std::test::Fail;
use std::thread::join;
use tungstenite::{Duplex, NoMask, Role, WebSocket};

// A link to a peer that sends these bytes and no more.
fn heard(alloc: Global, role: Role, bytes: &[u8]) -> SocketLink<Duplex<&[u8], Vec<u8>>, NoMask> {
    let stream = Duplex {
        reader: bytes,
        writer: Vec::new(alloc),
    };
    SocketLink::new(WebSocket::from_raw_socket(alloc, stream, NoMask, role, None))
}

// Whether the next text of a link is this one.
fn gives<L: Link>(link: &mut L, alloc: Global, wanted: &str) -> bool {
    matches!(link.recv(alloc), Ok(Got::Text(text)) if text.as_str() == wanted)
}

fn is_closed<L: Link>(link: &mut L, alloc: Global) -> bool {
    matches!(link.recv(alloc), Ok(Got::Closed))
}

fn fails<L: Link>(link: &mut L, alloc: Global) -> bool {
    matches!(link.recv(alloc), Err(LinkFault::Failed))
}

#[test]
fn pings_are_passed_over_and_binary_is_a_fault(rt: HostRuntime) -> Result<(), Fail> {
    let alloc = rt.alloc();
    let mut link = heard(alloc, Role::Client, b"\x89\x00\x81\x02yo\x82\x02hi");
    assert!(rt; gives(&mut link, alloc, "yo"));
    assert!(rt; fails(&mut link, alloc));
    Ok(())
}

#[test]
fn fragments_are_joined_and_a_close_ends_the_link(rt: HostRuntime) -> Result<(), Fail> {
    let alloc = rt.alloc();
    let mut link = heard(
        alloc,
        Role::Server,
        b"\x01\x81\x00\x00\x00\x00y\x80\x81\x00\x00\x00\x00o\x88\x80\x00\x00\x00\x00",
    );
    assert!(rt; gives(&mut link, alloc, "yo"));
    assert!(rt; is_closed(&mut link, alloc));
    assert!(rt; is_closed(&mut link, alloc));
    Ok(())
}

#[test]
fn a_message_that_is_cut_off_ends_the_link(rt: HostRuntime) -> Result<(), Fail> {
    let alloc = rt.alloc();
    let mut link = heard(alloc, Role::Server, b"\x81\x85\x00\x00\x00\x00he");
    assert!(rt; is_closed(&mut link, alloc));
    Ok(())
}

#[test]
fn what_is_no_text_frame_is_a_fault(rt: HostRuntime) -> Result<(), Fail> {
    let alloc = rt.alloc();
    let mut garbage = heard(alloc, Role::Server, b"\xff\xff\xff\xff");
    assert!(rt; fails(&mut garbage, alloc));
    let mut unmasked = heard(alloc, Role::Server, b"\x81\x02yo");
    assert!(rt; fails(&mut unmasked, alloc));
    let mut not_utf8 = heard(alloc, Role::Server, b"\x81\x82\x00\x00\x00\x00\xff\xfe");
    assert!(rt; fails(&mut not_utf8, alloc));
    Ok(())
}

// Serves one link: sends its text back, and waits until the link is closed.
fn echo<N: Net>(net: &mut N, alloc: Global) -> Result<bool, LinkFault> {
    let mut link = net.accept(alloc)?;
    if let Got::Text(text) = link.recv(alloc)? {
        link.send(alloc, text.as_str())?;
    }
    let ended = matches!(link.recv(alloc)?, Got::Closed);
    net.hang_up(link)?;
    Ok(ended)
}

// Asks over one link, and tells whether the same came back.
fn ask<N: Net>(net: &mut N, alloc: Global, place: &str) -> Result<bool, LinkFault> {
    let mut link = net.dial(alloc, place)?;
    link.send(alloc, "hello")?;
    let same = gives(&mut link, alloc, "hello");
    net.hang_up(link)?;
    Ok(same)
}

#[test]
fn texts_go_both_ways_over_tcp(rt: HostRuntime) -> Result<(), Fail> {
    let alloc = rt.alloc();
    let mut here = TcpNet::new(rt);
    let mut there = TcpNet::new(rt);
    let port = here.listen(0)?;
    let place = format!(in alloc; "127.0.0.1:{port}/x")?;
    let (ended, same) = join(
        &rt,
        || echo(&mut here, alloc),
        || ask(&mut there, alloc, place.as_str()),
    );
    assert!(rt; ended?);
    assert!(rt; same?);
    Ok(())
}

// Connects, sends these bytes for a handshake, and goes.
fn intrude<R: Sockets>(rt: &R, host: &str, bytes: &[u8]) -> Result<(), Fail> {
    let mut stream = TcpStream::connect(rt, host)?;
    stream.write_all(bytes)?;
    Ok(())
}

#[test]
fn a_peer_without_a_handshake_is_passed_over(rt: HostRuntime) -> Result<(), Fail> {
    let alloc = rt.alloc();
    let mut here = TcpNet::new(rt);
    let mut there = TcpNet::new(rt);
    let port = here.listen(0)?;
    let host = format!(in alloc; "127.0.0.1:{port}")?;
    intrude(&rt, host.as_str(), b"")?;
    intrude(&rt, host.as_str(), b"no handshake\r\n\r\n")?;
    intrude(&rt, host.as_str(), b"GET / HTTP/1.1\r\nUpgrade: webso")?;
    let place = format!(in alloc; "{host}/x")?;
    let (ended, same) = join(
        &rt,
        || echo(&mut here, alloc),
        || ask(&mut there, alloc, place.as_str()),
    );
    assert!(rt; ended?);
    assert!(rt; same?);
    Ok(())
}

#[test]
fn a_port_in_use_is_a_fault(rt: HostRuntime) -> Result<(), Fail> {
    let mut here = TcpNet::new(rt);
    let mut there = TcpNet::new(rt);
    let port = here.listen(0)?;
    assert!(rt; matches!(there.listen(port), Err(LinkFault::Failed)));
    Ok(())
}
