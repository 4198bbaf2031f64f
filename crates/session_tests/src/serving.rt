//! Two sessions at once, over links in memory.
ghost use Rattle.std.specs.Prelude.{◌≡◌, [], length};

use cov_io::SureLink;
use cov_messages::snapshot_of;
use cov_model::{Items, Snapshot};
use cov_serve::{Seat, Session, SharedTarget, Show, close, serve_sessions};
use cov_session::Target;
use cov_text::Text;
use serde_json::Value;
use std::alloc::Global;
use std::marker::Brand;
use std::sync::Wait;
use std::sync::ledger::{Blank, Ledger};
use std::test::*;
use std::thread::Threads;

/// What becomes of a target and of the links of its two sessions.
#[derive(Drop)]
struct Served {
    target: Target,
    first: SureLink,
    second: SureLink,
}

fn session<N: Show, A: Ledger, B: Ledger, C: Ledger>(
    alloc: Global,
    texts: Items<Text>,
    seat: Seat<N, A, B, C>,
) -> Session<N, A, B, C, SureLink> {
    Session {
        link: SureLink::new(alloc, texts),
        seat,
        takes: None,
    }
}

fn serve_two<
    N: Show + Send + Sync,
    A: Ledger + Send + Sync,
    B: Ledger + Send + Sync,
    C: Ledger + Send + Sync,
    R: Threads + Wait + Sync,
>(
    rt: &R,
    alloc: Global,
    target: Target,
    takes: Blank,
    frames: Blank,
    starts: Blank,
    first: Items<Text>,
    second: Items<Text>,
) -> Result<Served, Fail>
    requires named { (target.tape ≡ N.tape) × (target.pace ≡ N.pace) × (length target.desks ≡ N.sessions) }
    requires fresh { (target.played ≡ 0) × (target.takes ≡ []) }
    requires two { N.sessions ≡ 2 }
    requires takes { (takes.name ≡ A.name) × (takes.parts ≡ A.parts) × (takes.parts ≡ N.sessions) }
    requires frames { (frames.name ≡ B.name) × (frames.parts ≡ B.parts) × (frames.parts ≡ N.sessions) }
    requires starts { (starts.name ≡ C.name) × (starts.parts ≡ C.parts) × (starts.parts ≡ N.sessions) }
{
    let (shared, mut seats) = SharedTarget::<N, A, B, C>::new(
        alloc, target, takes, frames, starts,
    )?;
    let Some(right) = seats.pop() else {
        return Err("there are two seats".into());
    };
    let Some(left) = seats.pop() else {
        return Err("there are two seats".into());
    };
    let mut sessions = Vec::new(alloc);
    sessions.push(session(alloc, first, left))?;
    sessions.push(session(alloc, second, right))?;
    serve_sessions(rt, alloc, &shared, sessions.as_mut_slice());
    let Some(right) = sessions.pop() else {
        return Err("there are two sessions".into());
    };
    let Some(left) = sessions.pop() else {
        return Err("there are two sessions".into());
    };
    let mut seats = Vec::new(alloc);
    seats.push(left.seat)?;
    seats.push(right.seat)?;
    Ok(Served {
        target: close(shared, seats),
        first: left.link,
        second: right.link,
    })
}

/// A snapshot of one function that was called so often.
fn called(alloc: Global, count: u64) -> Result<Snapshot, Fail> {
    let text = format!(in alloc;
        "{{\"result\":[{{\"scriptId\":\"0\",\"url\":\"file:///a.js\",\"functions\":[{{\"functionName\":\"\",\"isBlockCoverage\":true,\"ranges\":[{{\"startOffset\":0,\"endOffset\":10,\"count\":{count}}}]}}]}}]}}"
    )?;
    let Ok(value) = Value::from_str(alloc, text.as_str()) else {
        return Err("the snapshot is JSON".into());
    };
    match snapshot_of(alloc, &value) {
        Ok(snapshot) => Ok(snapshot),
        Err(_) => Err("it is a snapshot".into()),
    }
}

/// Takes too early, is enabled, starts, and takes once.
fn requests(alloc: Global) -> Result<Items<Text>, Fail> {
    let mut texts = Items::new(alloc);
    texts.push(Text::from_text(
        alloc,
        "{\"id\":1,\"method\":\"Profiler.takePreciseCoverage\"}",
    )?)?;
    texts.push(Text::from_text(alloc, "{\"id\":2,\"method\":\"Profiler.enable\"}")?)?;
    texts.push(Text::from_text(
        alloc,
        "{\"id\":3,\"method\":\"Profiler.startPreciseCoverage\"}",
    )?)?;
    texts.push(Text::from_text(
        alloc,
        "{\"id\":4,\"method\":\"Profiler.takePreciseCoverage\"}",
    )?)?;
    Ok(texts)
}

#[test]
fn two_sessions_have_each_frame_once(rt: HostRuntime) -> Result<(), Fail> {
    let alloc = rt.alloc();
    let mut tape = Vec::new(alloc);
    tape.push(called(alloc, 1)?)?;
    tape.push(called(alloc, 1)?)?;
    let Ok(target) = Target::new(alloc, tape, 1, 2) else {
        return Err("the tape fits".into());
    };
    let first = requests(alloc)?;
    let second = requests(alloc)?;
    let served = serve_two::<Brand, Brand, Brand, Brand, HostRuntime>(
        &rt,
        alloc,
        target,
        Blank::new(2),
        Blank::new(2),
        Blank::new(2),
        first,
        second,
    )?;
    assert_eq!(rt; served.target.takes().len(), 2);
    assert_eq!(rt; served.target.tally().replied, 2);
    assert!(rt; served.first.closed && served.second.closed);
    let sent = served.first.sent.as_slice();
    assert_eq!(rt; sent.len(), 4);
    assert_eq!(rt;
        sent[0].as_text(),
        "{\"error\":{\"code\":-32000,\"message\":\"Precise coverage has not been started.\"},\"id\":1}"
    );
    assert_eq!(rt;
        sent[3].as_text(),
        "{\"id\":4,\"result\":{\"result\":[{\"functions\":[{\"functionName\":\"\",\"isBlockCoverage\":false,\"ranges\":[{\"count\":1,\"endOffset\":10,\"startOffset\":0}]}],\"scriptId\":\"0\",\"url\":\"file:///a.js\"}],\"timestamp\":0}}"
    );
    assert_eq!(rt; served.second.sent.len(), 4);
    Ok(())
}
