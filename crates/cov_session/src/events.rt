//! A whole list of events, and what becomes of each frame.
ghost use Rattle.std.specs.Prelude.{◌≡◌, ◌++◌, ◌<◌, ◌^◌, None, All, nat_lt, length, replicate, option_map, IfOk, IfErr, OnOk};
ghost use Rattle.cov_session.specs.Machine.{start, after, answer, answers};
ghost use Rattle.cov_session.specs.Fates.{fates, given, IsWithin};
ghost use Rattle.cov_session.specs.Laws.{AreOfTheirFates};
ghost use Rattle.cov_session.specs.Merging.{tape_fault, TellsFault};
ghost use Rattle.cov_session.specs.View.{reply_of, replies};

use crate::{Event, Fate, Reply, Tally, Target, TargetFault};
use cov_model::{Items, Snapshot};
use std::alloc::{AllocError, Global};

/// What became of a list of events.
#[derive(Drop)]
pub struct EventRun {
    /// One place for each event: the reply to a command, none for a frame or a leave.
    pub replies: Items<Option<Reply>>,
    /// One fate for each frame that was played.
    pub fates: Items<Fate>,
}

fn push_all(fates: &mut Vec<Fate>, count: u64, fate: Fate) -> Result<(), AllocError>
    ensures { OnOk result (fates.new.items ≡ fates.old.items ++ replicate count fate) }
{
    for _i in 0..count {
        fates.push(fate)?;
    }
    Ok(())
}

fn happen(alloc: Global, target: &mut Target, event: &Event) -> Result<Option<Reply>, AllocError>
    requires { IsWithin (length target.old.desks) event.now }
    ensures state { OnOk result (target.new ≡ after target.old event.now) }
    ensures reply { IfOk result (λ r. r ≡ option_map (reply_of target.old.tape) (answer target.old event.now)) }
{
    match event {
        Event::Frame => {
            target.play();
            Ok(None)
        }
        Event::Command { session, command } => {
            let reply = target.step(alloc, *session, command)?;
            Ok(Some(reply))
        }
        Event::Leave { session } => {
            target.leave(*session);
            Ok(None)
        }
    }
}

// What an event settles, by what rose.
fn settle(
    fates: &mut Vec<Fate>,
    before: &Tally,
    takes: u32,
    now: &Tally,
    takes_now: usize,
    place: u32,
) -> Result<(), AllocError>
    ensures { OnOk result (fates.new.items ≡ fates.old.items
        ++ given (nat_lt before.now.unwatched now.now.unwatched) (nat_lt takes takes_now)
        (nat_lt before.now.discarded now.now.discarded) before.now.held takes place) }
{
    if before.unwatched < now.unwatched {
        return push_all(fates, 1, Fate::Unwatched);
    }
    if (takes as usize) < takes_now {
        return push_all(fates, before.held, Fate::InReply(takes));
    }
    if before.discarded < now.discarded {
        return push_all(fates, before.held, Fate::Discarded(place));
    }
    Ok(())
}

fn run_all(
    alloc: Global,
    tape: Vec<Snapshot>,
    sessions: u32,
    events: &[Event],
) -> Result<EventRun, TargetFault>
    requires within { All (IsWithin sessions) events.now }
    requires few { length events.now < 2 ^ 32 }
    ensures replies { IfOk result (λ r. r.replies ≡ replies tape.items (answers (start tape.items 0 sessions) events.now)) }
    ensures fates { IfOk result (λ r. r.fates ≡ fates (start tape.items 0 sessions) 0 events.now) }
    ensures fits { OnOk result (tape_fault tape.items ≡ None) }
    ensures sum { IfErr result (λ fault. TellsFault (tape_fault tape.items) fault) }
{
    let mut target = Target::new(alloc, tape, 0, sessions)?;
    let mut replies = Items::new(alloc);
    let mut settled = Vec::new(alloc);
    for i in 0..events.len() {
        let event = &events[i];
        let before = target.tally();
        let takes = target.takes().len() as u32;
        let reply = happen(alloc, &mut target, event)?;
        replies.push(reply)?;
        let now = target.tally();
        let takes_now = target.takes().len();
        settle(&mut settled, &before, takes, &now, takes_now, i as u32)?;
    }
    push_all(&mut settled, target.tally().held, Fate::Held)?;
    Ok(EventRun {
        replies,
        fates: Items::from_vec(settled),
    })
}

/// Runs all events over a tape of which no take plays more: the reply to each, and the fate of each frame that is played. The
/// k-th take that is answered has in its reply what exactly the frames whose fate is `InReply(k)` come to, as its session's flags
/// let see it. `TargetFault::Sum` comes exactly where the tape's snapshots, added in order, come to a sum past 2^64-1, and
/// `TargetFault::NoMemory` only for want of memory.
pub fn run_events(
    alloc: Global,
    tape: Vec<Snapshot>,
    sessions: u32,
    events: &[Event],
) -> Result<EventRun, TargetFault>
    requires within { All (IsWithin sessions) events.now }
    requires few { length events.now < 2 ^ 32 }
    ensures replies { IfOk result (λ r. r.replies ≡ replies tape.items (answers (start tape.items 0 sessions) events.now)) }
    ensures fates { IfOk result (λ r. r.fates ≡ fates (start tape.items 0 sessions) 0 events.now) }
    ensures fits { OnOk result (tape_fault tape.items ≡ None) }
    ensures sum { IfErr result (λ fault. TellsFault (tape_fault tape.items) fault) }
    ensures frames { IfOk result (λ r. AreOfTheirFates tape.items r.fates
        (answers (start tape.items 0 sessions) events.now) r.replies) }
{
    let run = run_all(alloc, tape, sessions, events)?;
    Ok(run)
}
