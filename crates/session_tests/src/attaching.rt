ghost use Rattle.cov_io.specs.MemoryLinks.{sure_state};

use cov_attach::{AttachFault, PeerWhy, attach_all, run_session};
use cov_io::{Failing, Got, Link, LinkFault, MemLink, SureLink};
use cov_model::{Items, Snapshot, Text};
use std::alloc::{AllocError, Global};
use std::process::Abort;
use std::sync::Wait;
use std::sync::atomic::{AtomicU64, Ordering};
use std::test::*;
use std::thread::Threads;

/// What a peer answers that lets one snapshot be taken: a script with one function over the offsets 0 to 10, called once.
const GOOD: &[&str] = &[
    "{\"id\":1,\"result\":{}}",
    "{\"id\":2,\"result\":{}}",
    "{\"method\":\"Profiler.consoleProfileStarted\"}",
    "{\"id\":3,\"result\":{\"result\":[{\"functions\":[{\"functionName\":\"\",\"isBlockCoverage\":true,\"ranges\":[{\"count\":1,\"endOffset\":10,\"startOffset\":0}]}],\"scriptId\":\"0\",\"url\":\"file:///a.js\"}]}}",
    "{\"id\":4,\"result\":{}}",
    "{\"id\":5,\"result\":{}}",
];

/// An answer to a take that isn't a snapshot.
const BAD_TAKE: &[&str] = &[
    "{\"id\":1,\"result\":{}}",
    "{\"id\":2,\"result\":{}}",
    "{\"id\":3,\"result\":{}}",
];

const NO_JSON: &[&str] = &["{"];

// A link over which so many events come, and then these texts. The call of this number fails.
fn link(
    alloc: Global,
    events: u32,
    texts: &[&str],
    failing: Option<u64>,
) -> Result<MemLink, AllocError> {
    let mut coming = Items::new(alloc);
    for _ in 0..events {
        coming.push(Text::from_text(alloc, "{\"method\":\"x\"}")?)?;
    }
    for text in texts {
        coming.push(Text::from_text(alloc, text)?)?;
    }
    let mut numbers = Items::new(alloc);
    if let Some(number) = failing {
        numbers.push(number)?;
    }
    Ok(MemLink {
        inner: SureLink::new(alloc, coming),
        failing: Failing::new(numbers),
    })
}

// What a session that takes one snapshot answers over the link above, and whether that is closed then.
fn attached<R: Wait>(
    rt: &R,
    alloc: Global,
    events: u32,
    texts: &[&str],
    failing: Option<u64>,
) -> Result<(Result<Items<Snapshot>, AttachFault>, bool), AllocError> {
    let mut link = link(alloc, events, texts, failing)?;
    let answer = run_session(rt, alloc, &mut link, 1);
    Ok((answer, link.inner.closed))
}

// Whether these are the snapshot that `GOOD` tells.
fn is_good(taken: &Items<Snapshot>) -> bool {
    let [snapshot] = taken.as_slice() else {
        return false;
    };
    let [script] = snapshot.scripts() else {
        return false;
    };
    script.url.as_text() == "file:///a.js" && script.functions.len() == 1
}

#[test]
fn a_session_takes_a_snapshot(rt: HostRuntime) -> Result<(), Fail> {
    let alloc = rt.alloc();
    let mut link = link(alloc, 0, GOOD, None)?;
    let taken = run_session(&rt, alloc, &mut link, 1);
    assert!(rt; matches!(&taken, Ok(taken) if is_good(taken)));
    assert_eq!(rt; link.inner.sent.len(), 5);
    assert_eq!(rt; link.inner.received, 6);
    assert!(rt; !link.inner.closed);
    let (taken, closed) = attached(&rt, alloc, 999, GOOD, None)?;
    assert!(rt; matches!(&taken, Ok(taken) if is_good(taken)));
    assert!(rt; !closed);
    Ok(())
}

#[test]
fn a_session_tells_its_fault(rt: HostRuntime) -> Result<(), Fail> {
    let alloc = rt.alloc();
    for count in 0..6 {
        let (answer, closed) = attached(&rt, alloc, 0, &GOOD[..count], None)?;
        assert!(rt; matches!(answer, Err(AttachFault::Closed)));
        assert!(rt; closed);
    }
    for call in 0..11 {
        let (answer, closed) = attached(&rt, alloc, 0, GOOD, Some(call))?;
        assert!(rt; matches!(answer, Err(AttachFault::Failed)));
        assert!(rt; !closed);
    }
    let (answer, _) = attached(&rt, alloc, 1000, GOOD, None)?;
    assert!(rt;
        matches!(
            answer,
            Err(AttachFault::Peer {
                message: 999,
                why: PeerWhy::Chatter
            })
        )
    );
    let (answer, closed) = attached(&rt, alloc, 0, NO_JSON, None)?;
    assert!(rt;
        matches!(
            answer,
            Err(AttachFault::Peer {
                message: 0,
                why: PeerWhy::NotReply
            })
        )
    );
    assert!(rt; !closed);
    let refusal = ["{\"id\":1,\"error\":{\"code\":-32000,\"message\":\"x\"}}"];
    let (answer, _) = attached(&rt, alloc, 0, &refusal, None)?;
    assert!(rt;
        matches!(
            answer,
            Err(AttachFault::Peer {
                message: 0,
                why: PeerWhy::ErrorReply { code: -32000 }
            })
        )
    );
    let other = ["{\"id\":1,\"result\":{}}", "{\"id\":7,\"result\":{}}"];
    let (answer, _) = attached(&rt, alloc, 0, &other, None)?;
    assert!(rt;
        matches!(
            answer,
            Err(AttachFault::Peer {
                message: 1,
                why: PeerWhy::OtherId { id: 7 }
            })
        )
    );
    let (answer, _) = attached(&rt, alloc, 0, BAD_TAKE, None)?;
    assert!(rt;
        matches!(
            answer,
            Err(AttachFault::Peer {
                message: 2,
                why: PeerWhy::BadSnapshot(_)
            })
        )
    );
    Ok(())
}

#[test]
fn the_least_session_with_a_fault_is_told(rt: HostRuntime) -> Result<(), Fail> {
    let alloc = rt.alloc();
    let mut links = Vec::new(alloc);
    links.push(link(alloc, 0, BAD_TAKE, None)?)?;
    links.push(link(alloc, 0, NO_JSON, None)?)?;
    links.push(link(alloc, 0, GOOD, None)?)?;
    let Err(told) = attach_all(&rt, alloc, links.as_mut_slice(), 1) else {
        return Err("two sessions have a fault".into());
    };
    assert_eq!(rt; told.session, 0);
    assert!(rt; matches!(told.fault, AttachFault::Peer { message: 2, .. }));
    assert!(rt; links.len() == 3 && links[1].inner.received == 1 && links[2].inner.received == 6);
    Ok(())
}

/// How often a link looks before it gives up.
const TURNS: u64 = 100_000_000;

/// A link whose peer answers once two texts were sent over all such links.
#[derive(Drop)]
struct Meeting<'a> {
    inner: SureLink,
    sent: &'a AtomicU64,
    late: bool,
}

impl<'a> Link for Meeting<'a> {
    ghost state = { λ s. sure_state s.inner };

    ghost faults = { λ _. 0 };

    fn send(&mut self, alloc: Global, text: &str) -> Result<(), LinkFault> {
        self.sent.fetch_add(1, Ordering::SeqCst);
        self.inner.send(alloc, text)
    }

    fn recv(&mut self, alloc: Global) -> Result<Got, LinkFault> {
        if !waits_for_two(self.sent) {
            self.late = true;
        }
        self.inner.recv(alloc)
    }
}

// Whether two texts were sent before the last turn.
fn waits_for_two(sent: &AtomicU64) -> bool {
    for _ in 0..TURNS {
        if sent.load(Ordering::SeqCst) >= 2 {
            return true;
        }
    }
    false
}

#[test]
fn two_sessions_run_at_once(rt: HostRuntime) -> Result<(), Fail> {
    let alloc = rt.alloc();
    let sent = AtomicU64::new(0);
    let mut links = Vec::new(alloc);
    for _ in 0..2 {
        let link = link(alloc, 0, GOOD, None)?;
        links.push(Meeting {
            inner: link.inner,
            sent: &sent,
            late: false,
        })?;
    }
    let taken = attach_all(&rt, alloc, links.as_mut_slice(), 1);
    assert!(rt;
        matches!(&taken, Ok(all) if all.len() == 2 && is_good(&all[0]) && is_good(&all[1]))
    );
    assert!(rt; links.iter().all(|link| !link.late));
    Ok(())
}
