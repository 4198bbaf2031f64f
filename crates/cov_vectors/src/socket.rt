//! `serve` and `attach` over sockets of this machine.
use crate::calls::{Called, call};
use crate::memory::GOOD;
use crate::watched::{Page, Watched, first_line};
use cov_commands::Ended;
use cov_io::{MemSink, Net};
use cov_net::TcpNet;
use cov_text::Items;
use std::alloc::{AllocError, Global};
use std::process::Abort;
use std::sync::Wait;
use std::test::Fail;
use std::thread::{Threads, join};

/// Replays a folder with one file to one client, on a port that the system chooses.
fn replay<N: Net, R: Threads + Wait + Sync + Copy + Drop>(
    rt: &R,
    alloc: Global,
    net: &mut N,
    page: &Page,
) -> Result<Called, AllocError>
where
    N::Link: Send,
{
    let files = [("cov/a.json", GOOD)];
    let mut out = Watched::new(*rt, page);
    let words = ["serve", "cov", "--port", "0"];
    let called = call(rt, alloc, &words, &files, net, &mut out);
    page.end(rt);
    called
}

/// Records what is replayed where the first line of a page tells.
fn record<N: Net, R: Threads + Wait + Sync>(
    rt: &R,
    alloc: Global,
    net: &mut N,
    page: &Page,
    out: &mut MemSink,
) -> Result<Called, AllocError>
where
    N::Link: Send,
{
    let line = page.wait_for_line(rt, alloc)?;
    let host = line.strip_prefix("listening on ").unwrap_or("");
    let place = format!(in alloc; "{host}/session")?;
    call(rt, alloc, &["attach", place.as_str()], &[], net, out)
}

#[test]
fn attach_records_what_serve_replays_over_sockets(rt: HostRuntime) -> Result<(), Fail> {
    let alloc = rt.alloc();
    let page = Page::new(alloc);
    let mut recorded = MemSink::new(alloc, Items::new(alloc));
    let mut here = TcpNet::new(rt);
    let mut there = TcpNet::new(rt);
    let (served, attached) = join(
        &rt,
        || replay(&rt, alloc, &mut here, &page),
        || record(&rt, alloc, &mut there, &page, &mut recorded),
    );
    let (served, attached) = (served?, attached?);
    assert_eq!(rt; attached.ended, Ended::Done);
    assert_eq!(rt; served.ended, Ended::Done);
    assert!(rt; attached.err.inner.bytes.is_empty() && served.err.inner.bytes.is_empty());
    assert!(rt; recorded.inner.bytes.as_slice() == GOOD.as_bytes());
    let written = page.into_bytes();
    let Some((_, tally)) = first_line(written.as_slice()) else {
        return Err("serve has written a line".into());
    };
    assert_eq!(rt;
        tally,
        "played 1 replied 1 discarded 0 unwatched 0 held 0\n"
    );
    Ok(())
}
