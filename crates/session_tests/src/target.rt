//! Runs of sessions and of a client, event by event and text by text.
ghost use Rattle.std.specs.Prelude.{◌≡◌, ◌<◌, ◌^◌, All, length, true};
ghost use Rattle.cov_session.specs.Fates.{IsWithin};
ghost use Rattle.cov_session.specs.Kept.{is_proper};

use cov_messages::snapshot_of;
use cov_model::{FunctionReport, Range, Snapshot};
use cov_session::{
    Client, Command, Desk, ErrorCode, Event, EventRun, Fate, Flags, HearFault, Heard, PeerWhy,
    Reply, Target, run_events,
};
use serde_json::Value;
use std::alloc::Global;
use std::test::*;

const FRAME: &str =
    "{\"result\":[{\"url\":\"file:///a.js\",\"functions\":[{\"functionName\":\"\",\"isBlockCoverage\":true,\"ranges\":[{\"startOffset\":0,\"endOffset\":34,\"count\":1},{\"startOffset\":13,\"endOffset\":33,\"count\":10},{\"startOffset\":19,\"endOffset\":24,\"count\":4},{\"startOffset\":24,\"endOffset\":30,\"count\":6}]}]}]}";

const PLAIN: Flags = Flags {
    call_count: false,
    detailed: false,
    triggered: false,
};

const FULL: Flags = Flags {
    call_count: true,
    detailed: true,
    triggered: false,
};

fn frame(alloc: Global) -> Result<Snapshot, Fail> {
    let Ok(value) = Value::from_str(alloc, FRAME) else {
        return Err(Fail::from("no JSON"));
    };
    match snapshot_of(alloc, &value) {
        Ok(snapshot) => Ok(snapshot),
        Err(_) => Err(Fail::from("no snapshot")),
    }
}

fn tape(alloc: Global, frames: u32) -> Result<Vec<Snapshot>, Fail> {
    let mut tape = Vec::new(alloc);
    for _ in 0..frames {
        tape.push(frame(alloc)?)?;
    }
    Ok(tape)
}

fn does(session: u32, command: Command) -> Event
    ensures { result ≡ Event.Command session command }
{
    Event::Command { session, command }
}

fn run(alloc: Global, frames: u32, sessions: u32, events: &[Event]) -> Result<EventRun, Fail>
    requires within { All (IsWithin sessions) events.now }
    requires few { length events.now < 2 ^ 32 }
{
    match run_events(alloc, tape(alloc, frames)?, sessions, events) {
        Ok(run) => Ok(run),
        Err(_) => Err(Fail::from("no run")),
    }
}

fn has_fates(run: &EventRun, fates: &[Fate]) -> bool {
    run.fates.as_slice() == fates
}

// The snapshot of the reply at this place.
fn taken(run: &EventRun, place: usize) -> Option<&Snapshot> {
    match run.replies.as_slice().get(place) {
        Some(Some(Reply::Taken(snapshot))) => Some(snapshot),
        _ => None,
    }
}

// The start, the end and the count of each range.
fn are(ranges: &[Range], told: &[(u32, u32, u64)]) -> bool {
    ranges.len() == told.len()
        && ranges.iter().zip(told).all(|(range, told)| (range.start, range.end, range.count)
            == *told)
}

// The first session gets this desk.
fn set(target: &mut Target, desk: Desk)
    requires { is_proper desk ≡ true }
{
    if target.sessions() > 0 {
        target.resume(0, &desk);
    }
}

fn first_function(snapshot: &Snapshot) -> Option<&FunctionReport> {
    let entry = snapshot.scripts().first()?;
    entry.functions.as_slice().first()
}

#[test]
fn a_start_discards_what_is_held(rt: HostRuntime) -> Result<(), Fail> {
    let alloc = rt.alloc();
    let events = [
        does(0, Command::Enable),
        does(1, Command::Enable),
        does(0, Command::Start(PLAIN)),
        Event::Frame,
        Event::Frame,
        Event::Frame,
        does(1, Command::Start(PLAIN)),
        Event::Frame,
        Event::Frame,
        does(0, Command::Take),
        does(1, Command::Take),
    ];
    let run = run(alloc, 5, 2, &events)?;
    let discarded = Fate::Discarded(6);
    let taken_once = Fate::InReply(0);
    assert!(rt;
        has_fates(
            &run,
            &[discarded, discarded, discarded, taken_once, taken_once]
        )
    );
    assert!(rt; matches!(taken(&run, 10), Some(snapshot) if snapshot.scripts().is_empty()));
    Ok(())
}

// Whether a take of two frames shows their function with this flag and these ranges.
fn shows(alloc: Global, flags: Flags, block: bool, told: &[(u32, u32, u64)]) -> Result<bool, Fail> {
    let events = [
        does(0, Command::Enable),
        does(0, Command::Start(flags)),
        Event::Frame,
        Event::Frame,
        does(0, Command::Take),
    ];
    let run = run(alloc, 2, 1, &events)?;
    let Some(function) = taken(&run, 4).and_then(first_function) else {
        return Err(Fail::from("no function"));
    };
    Ok(function.block == block && are(function.ranges.as_slice(), told))
}

#[test]
fn flags_tell_what_is_seen(rt: HostRuntime) -> Result<(), Fail> {
    let alloc = rt.alloc();
    let counted = [(0, 34, 2), (13, 33, 20), (19, 24, 8), (24, 30, 12)];
    assert!(rt; shows(alloc, PLAIN, false, &[(0, 34, 1)])?);
    assert!(rt; shows(alloc, FULL, true, &counted)?);
    Ok(())
}

#[test]
fn a_frame_is_held_while_a_session_runs(rt: HostRuntime) -> Result<(), Fail> {
    let alloc = rt.alloc();
    let events = [
        Event::Frame,
        does(0, Command::Enable),
        does(0, Command::Start(PLAIN)),
        Event::Frame,
        does(0, Command::Stop),
        Event::Frame,
    ];
    let alone = run(alloc, 3, 1, &events)?;
    let fates = [Fate::Unwatched, Fate::Discarded(4), Fate::Unwatched];
    assert!(rt; has_fates(&alone, &fates));
    let events = [
        does(0, Command::Enable),
        does(1, Command::Enable),
        does(0, Command::Start(PLAIN)),
        does(1, Command::Start(PLAIN)),
        Event::Frame,
        Event::Leave { session: 0 },
        does(1, Command::Take),
    ];
    let two = run(alloc, 1, 2, &events)?;
    assert!(rt; has_fates(&two, &[Fate::InReply(0)]));
    Ok(())
}

// A command of the first session.
fn told(alloc: Global, target: &mut Target, command: Command) -> Result<Reply, Fail> {
    if target.sessions() == 0 {
        return Err(Fail::from("no session"));
    }
    let reply = target.step(alloc, 0, &command)?;
    Ok(reply)
}

#[test]
fn a_desk_that_is_idle_discards_what_is_held(rt: HostRuntime) -> Result<(), Fail> {
    let alloc = rt.alloc();
    let Ok(mut target) = Target::new(alloc, tape(alloc, 1)?, 0, 1) else {
        return Err(Fail::from("no target"));
    };
    let early = told(alloc, &mut target, Command::Start(PLAIN))?;
    assert!(rt; matches!(early, Reply::Refused(ErrorCode::NotEnabled)));
    let enabled = told(alloc, &mut target, Command::Enable)?;
    assert!(rt; matches!(enabled, Reply::Done));
    let started = told(alloc, &mut target, Command::Start(PLAIN))?;
    assert!(rt; matches!(started, Reply::Started));
    assert!(rt; target.play());
    set(
        &mut target,
        Desk {
            enabled: true,
            started: Some(PLAIN),
        },
    );
    assert_eq!(rt; target.tally().held, 1);
    set(
        &mut target,
        Desk {
            enabled: false,
            started: None,
        },
    );
    assert_eq!(rt; target.tally().discarded, 1);
    let late = told(alloc, &mut target, Command::Take)?;
    assert!(rt; matches!(late, Reply::Refused(ErrorCode::NotStarted)));
    Ok(())
}

// What a client hears, unless its script is done.
fn heard(client: &mut Client, alloc: Global, text: &str) -> Result<Option<Heard>, HearFault> {
    if client.word(alloc)?.is_none() {
        return Ok(None);
    }
    let heard = client.hear(alloc, text)?;
    Ok(Some(heard))
}

#[test]
fn a_client_takes_one_snapshot(rt: HostRuntime) -> Result<(), Fail> {
    let alloc = rt.alloc();
    let mut client = Client::new(1);
    let done = heard(&mut client, alloc, "{\"id\":1,\"result\":{}}");
    assert!(rt; matches!(done, Ok(Some(Heard::Done))));
    let early = heard(&mut client, alloc, "{\"id\":1,\"result\":{}}");
    assert!(rt; matches!(early, Err(HearFault::Peer(PeerWhy::OtherId { id: 1 }))));
    let event = heard(
        &mut client,
        alloc,
        "{\"method\":\"Profiler.consoleProfileStarted\"}",
    );
    assert!(rt; matches!(event, Ok(Some(Heard::Skipped))));
    let started = heard(&mut client, alloc, "{\"id\":2,\"result\":{}}");
    assert!(rt; matches!(started, Ok(Some(Heard::Done))));
    let refused = heard(
        &mut client,
        alloc,
        "{\"id\":3,\"error\":{\"code\":-32000,\"message\":\"x\"}}",
    );
    assert!(rt;
        matches!(
            refused,
            Err(HearFault::Peer(PeerWhy::ErrorReply { code: -32000 }))
        )
    );
    let bad = heard(&mut client, alloc, "{\"id\":3,\"result\":{}}");
    assert!(rt; matches!(bad, Err(HearFault::Peer(PeerWhy::BadSnapshot(_)))));
    let took = heard(&mut client, alloc, "{\"id\":3,\"result\":{\"result\":[]}}");
    assert!(rt; matches!(took, Ok(Some(Heard::Took(_)))));
    let none = heard(&mut client, alloc, "{");
    assert!(rt; matches!(none, Err(HearFault::Peer(PeerWhy::NotReply))));
    let stopped = heard(&mut client, alloc, "{\"id\":4,\"result\":{}}");
    assert!(rt; matches!(stopped, Ok(Some(Heard::Done))));
    let disabled = heard(&mut client, alloc, "{\"id\":5,\"result\":{}}");
    assert!(rt; matches!(disabled, Ok(Some(Heard::Done))));
    assert!(rt; client.word(alloc)?.is_none());
    Ok(())
}
