//! One live session.
ghost use Rattle.std.specs.Prelude.{IsSome};
ghost use Rattle.cov_io.specs.Causes.{HasCause};
ghost use Rattle.cov_session.specs.Script.{word};
ghost use Rattle.cov_attach.specs.declared.fault.AttachFault.TheVariants.{Failed};
ghost use Rattle.cov_attach.specs.Sessions.{IsSession};
ghost use Rattle.cov_attach.specs.Steps.{IsCounted, Asks, HearsNext};

use crate::AttachFault;
use cov_io::{Got, Link};
use cov_model::{Items, Snapshot};
use cov_session::{Client, HearFault, Heard};
use std::alloc::Global;
use std::sync::Wait;

// A session on its way: its client, the snapshots taken and how many texts were received.
#[derive(Drop)]
struct Session {
    client: Client,
    taken: Items<Snapshot>,
    received: u64,
}

/// Takes this many snapshots over a link, by the script of a client of the Profiler domain, and gives them in order. It waits
/// for the peer.
///
/// `AttachFault::Failed` comes only where the link failed in this call. `AttachFault::Closed` comes exactly where the peer closes
/// the link before an awaited reply, and `AttachFault::Peer` exactly where the client refuses a text.
pub fn run_session<L: Link, R: Wait>(
    rt: &R,
    alloc: Global,
    link: &mut L,
    takes: u32,
) -> Result<Items<Snapshot>, AttachFault>
    ensures session { IsSession takes (L.state link.old) (L.state link.new) result }
    ensures cause { HasCause Failed (L.faults link.old) (L.faults link.new) result }
{
    let mut session = Session {
        client: Client::new(takes),
        taken: Items::new(alloc),
        received: 0,
    };
    let mut awaits = session.ask(alloc, link)?;
    for _ in rt.forever() {
        if !awaits {
            return Ok(session.taken);
        }
        if session.hear(alloc, link)? {
            awaits = session.ask(alloc, link)?;
        }
    }
    unreachable!()
}

impl Session {
    // Sends the request whose reply is awaited next. False where the script is done.
    fn ask<L: Link>(&self, alloc: Global, link: &mut L) -> Result<bool, AttachFault>
        ensures asks { Asks self.now (L.state link.old) (L.state link.new) result }
        ensures cause { HasCause Failed (L.faults link.old) (L.faults link.new) result }
    {
        let Some(text) = self.client.word(alloc)? else {
            return Ok(false);
        };
        link.send(alloc, &text)?;
        Ok(true)
    }

    // Hears the next text. True where it is the awaited reply.
    fn hear<L: Link>(&mut self, alloc: Global, link: &mut L) -> Result<bool, AttachFault>
        requires awaits { IsSome (word self.old.client) }
        requires counted { IsCounted self.old }
        ensures hears { HearsNext self.old self.new (L.state link.old) (L.state link.new) result }
        ensures cause { HasCause Failed (L.faults link.old) (L.faults link.new) result }
    {
        let text = match link.recv(alloc)? {
            Got::Text(text) => text,
            Got::Closed => return Err(AttachFault::Closed),
        };
        let message = self.received;
        let heard = match self.client.hear(alloc, &text) {
            Ok(heard) => heard,
            Err(HearFault::Peer(why)) => return Err(AttachFault::Peer { message, why }),
            Err(HearFault::NoMemory) => return Err(AttachFault::NoMemory),
        };
        self.received = message + 1;
        match heard {
            Heard::Skipped => Ok(false),
            Heard::Done => Ok(true),
            Heard::Took(snapshot) => {
                self.taken.push(snapshot)?;
                Ok(true)
            }
        }
    }
}
