//! The client of a target: its script of requests, and what it hears.
ghost use Rattle.std.specs.Prelude.{◌≡◌, ◌+◌, ◌≤◌, ◌==◌, if◌then◌else◌, Option, option_map, string_bytes, slice_get, Ok, Err, IsSome, IfOk, OnErr};
ghost use Rattle.serde_json.specs.View.{view};
ghost use Rattle.cov_model.specs.Reading as reading;
ghost use Rattle.cov_messages.specs.Replies.{event, answer, refusal};
ghost use Rattle.cov_session.specs.declared.client.HearFault.TheVariants.{NoMemory};
ghost use Rattle.cov_session.specs.Script as spec;
ghost use Rattle.cov_session.specs.Script.{Talk, Hears, HearFails, heard_as, talk_after};

use cov_messages::{Command, Flags, Message, message_of, request_text, snapshot_of};
use cov_model::{ShapeFault, Snapshot};
use serde_json::Value;
use std::alloc::{AllocError, Global};
use std::marker::Model;

/// What a client heard of a text.
#[derive(Debug, Drop)]
pub enum Heard {
    /// An event, which it passes over.
    Skipped,
    /// The answer to a request that isn't a take.
    Done,
    /// The answer to a take.
    Took(Snapshot),
}

/// Why a client refuses what its peer sent.
#[derive(Clone, Copy, Debug, PartialEq, Eq)]
pub enum PeerWhy {
    /// The text is neither an event nor a reply.
    NotReply,
    /// It is the reply to another request than the awaited one.
    OtherId { id: u64 },
    /// The awaited request was refused.
    ErrorReply { code: i64 },
    /// The answer to a take isn't a snapshot: its first fault.
    BadSnapshot(ShapeFault),
    /// It is the 1,000th event in a row since the last request.
    Chatter,
}

/// Why a client didn't go on.
#[derive(Clone, Copy, Debug, PartialEq, Eq)]
pub enum HearFault {
    Peer(PeerWhy),
    NoMemory,
}

impl From<AllocError> for HearFault {
    ghost from_gives = { λ _ fault. fault ≡ NoMemory };

    fn from(_: AllocError) -> HearFault {
        HearFault::NoMemory
    }
}

/// A client of the Profiler domain. Its script has the numbers from 1 on: enable, start with counts of calls and blocks, the takes,
/// stop, disable. One request awaits its reply before the next is sent. Contracts see the client as how far it has come.
#[derive(Debug, Drop)]
pub struct Client {
    takes: u32,
    answered: u64,
    events: u32,
}

impl Model for Client {
    ghost use Rattle.std.specs.Prelude.{◌+◌, ◌≤◌};
    ghost use Rattle.cov_session.specs.Script.{Talk};

    ghost Value = { Talk };

    ghost view = { λ c. record { takes = c.takes; answered = c.answered; events = c.events } };

    ghost invariant = { λ c. (c.answered ≤ c.takes + 4) × (c.events ≤ 999) };
}

// The request at a place of the script, from 0.
fn command_at(takes: u32, place: u64) -> Option<Command>
    ensures { result ≡ slice_get (spec.script takes) place }
{
    let takes = takes as u64;
    if place == 0 {
        return Some(Command::Enable);
    }
    if place == 1 {
        return Some(Command::Start(Flags {
            call_count: true,
            detailed: true,
            triggered: false,
        }));
    }
    if place < takes + 2 {
        return Some(Command::Take);
    }
    if place == takes + 2 {
        return Some(Command::Stop);
    }
    if place == takes + 3 {
        return Some(Command::Disable);
    }
    None
}

fn is_take(command: Option<Command>) -> bool
    ensures { result ≡ spec.is_take command }
{
    match command {
        Some(Command::Take) => true,
        Some(Command::Enable | Command::Disable | Command::Start(_) | Command::Stop) => false,
        None => false,
    }
}

// A snapshot that was taken, or its first fault.
fn taken(alloc: Global, body: &Value) -> Result<Heard, HearFault>
    ensures heard { Hears result (spec.taken (reading.snapshot_of (view body.now))) }
    ensures replied { IfOk result (λ heard. (talk : Talk) → talk_after talk heard ≡ spec.replied talk) }
{
    match snapshot_of(alloc, body) {
        Ok(snapshot) => Ok(Heard::Took(snapshot)),
        Err(ShapeFault::NoMemory) => Err(HearFault::NoMemory),
        Err(fault) => Err(HearFault::Peer(PeerWhy::BadSnapshot(fault))),
    }
}

impl Client {
    /// A client that is to take this many snapshots, before its first request.
    pub fn new(takes: u32) -> Client
        ensures { result ≡ spec.opening takes }
    {
        Client {
            takes,
            answered: 0,
            events: 0,
        }
    }

    /// The text of the next request, which is the one whose reply is awaited. `None` where the script is done. An `AllocError` comes
    /// only for want of memory.
    pub fn word(&self, alloc: Global) -> Result<Option<String>, AllocError>
        ensures { IfOk result (λ text. option_map string_bytes text ≡ spec.word self.now) }
    {
        match command_at(self.takes, self.answered) {
            Some(command) => {
                let text = request_text(alloc, self.awaited_id(), &command)?;
                Ok(Some(text))
            }
            None => Ok(None),
        }
    }

    /// Takes a received text as the reply that is awaited, or as an event. `HearFault::Peer` comes exactly where the text is neither,
    /// or its snapshot has a fault, or it is the 1,000th event in a row since the last request; `HearFault::NoMemory` comes only for
    /// want of memory. After a refusal the client is as before.
    pub fn hear(&mut self, alloc: Global, text: &str) -> Result<Heard, HearFault>
        requires awaits { IsSome (spec.word self.old) }
        ensures heard { Hears result (spec.heard_of self.old text.now) }
        ensures state { IfOk result (λ heard. self.new ≡ talk_after self.old heard) }
        ensures err { OnErr result (self.new ≡ self.old) }
    {
        match message_of(alloc, text)? {
            Message::Event => self.skip(),
            Message::Answer { id, body } => self.answer(alloc, id, &body),
            Message::ErrorAnswer { id, code } => Err(self.refusal(id, code)),
            Message::Bad => Err(HearFault::Peer(PeerWhy::NotReply)),
        }
    }

    fn skip(&mut self) -> Result<Heard, HearFault>
        ensures heard { Hears result (heard_as self.old event) }
        ensures state { IfOk result (λ heard. self.new ≡ talk_after self.old heard) }
        ensures err { OnErr result (self.new ≡ self.old) }
    {
        if self.events >= 999 {
            return Err(HearFault::Peer(PeerWhy::Chatter));
        }
        self.events += 1;
        Ok(Heard::Skipped)
    }

    fn answer(&mut self, alloc: Global, id: u64, body: &Value) -> Result<Heard, HearFault>
        requires awaits { IsSome (spec.word self.old) }
        ensures heard { Hears result (heard_as self.old (answer id (view body.now))) }
        ensures state { IfOk result (λ heard. self.new ≡ talk_after self.old heard) }
        ensures err { OnErr result (self.new ≡ self.old) }
    {
        if id != self.awaited_id() {
            return Err(HearFault::Peer(PeerWhy::OtherId { id }));
        }
        let heard = self.answered_with(alloc, body)?;
        self.answered += 1;
        self.events = 0;
        Ok(heard)
    }

    // What the answer to the awaited request tells.
    fn answered_with(&self, alloc: Global, body: &Value) -> Result<Heard, HearFault>
        ensures heard { Hears result (if spec.is_take (spec.awaited self.now)
            then spec.taken (reading.snapshot_of (view body.now)) else Ok Heard.Done) }
        ensures replied { IfOk result (λ heard. talk_after self.now heard ≡ spec.replied self.now) }
    {
        if is_take(command_at(self.takes, self.answered)) {
            return taken(alloc, body);
        }
        Ok(Heard::Done)
    }

    fn awaited_id(&self) -> u64
        ensures { result ≡ spec.awaited_id self.now }
    {
        prove!(self.answered <= self.takes as u64 + 4);
        self.answered + 1
    }

    fn refusal(&self, id: u64, code: i64) -> HearFault
        ensures { HearFails result (heard_as self.now (refusal id code)) }
    {
        if id != self.awaited_id() {
            return HearFault::Peer(PeerWhy::OtherId { id });
        }
        HearFault::Peer(PeerWhy::ErrorReply { code })
    }
}
