//! Links and a net in memory, which tell all that they hold.
ghost use Rattle.std.specs.Prelude.{◌≡◌, IfOk, IfErr};
ghost use Rattle.cov_io.specs.declared.link.LinkFault.TheVariants.{Failed};
ghost use Rattle.cov_io.specs.Causes.{HasCause};
ghost use Rattle.cov_io.specs.Fails.{failing_at};
ghost use Rattle.cov_io.specs.Links.{Makes, IsNew};
ghost use Rattle.cov_io.specs.MemoryLinks.{sure_state, new_link, linked, net_state, new_net};

use crate::{Failing, Got, Link, LinkFault, Net, counted};
use cov_text::{Items, Text};
use std::alloc::{AllocError, Global};

/// A link in memory that never fails.
#[derive(Debug, Drop)]
pub struct SureLink {
    pub sent: Items<Text>,
    /// The texts that come, and how many of them were received.
    pub texts: Items<Text>,
    pub received: usize,
    pub closed: bool,
}

/// A link in memory whose calls fail by a list of their numbers, from 0. A call that fails changes nothing else.
#[derive(Debug, Drop)]
pub struct MemLink {
    pub inner: SureLink,
    pub failing: Failing,
}

/// A link that a net in memory will make: the texts that will come over it, and which of its calls will fail.
#[derive(Debug, Drop)]
pub struct Prepared {
    pub texts: Items<Text>,
    pub failing: Items<u64>,
}

/// A net in memory whose calls fail by a list of their numbers, from 0, and where no prepared link is left.
#[derive(Debug, Drop)]
pub struct MemNet {
    pub coming: Vec<Prepared>,
    pub dialled: Items<Text>,
    pub back: Items<MemLink>,
    pub port: Option<u16>,
    pub closed: u64,
    pub failing: Failing,
}

impl SureLink {
    /// A link over which these texts come.
    pub fn new(alloc: Global, texts: Items<Text>) -> SureLink
        ensures { result ≡ new_link texts }
    {
        SureLink {
            sent: Items::new(alloc),
            texts,
            received: 0,
            closed: false,
        }
    }
}

impl MemNet {
    /// A net that will make these links, and whose calls of these numbers fail.
    pub fn new(alloc: Global, coming: Vec<Prepared>, numbers: Items<u64>) -> MemNet
        ensures state { net_state result ≡ new_net coming.items }
        ensures failing { result.failing ≡ failing_at numbers }
    {
        MemNet {
            coming,
            dialled: Items::new(alloc),
            back: Items::new(alloc),
            port: None,
            closed: 0,
            failing: Failing::new(numbers),
        }
    }

    // The first of the links to come, unless this call fails or none is left.
    fn next_link(&mut self, alloc: Global) -> Result<MemLink, LinkFault>
        ensures makes { Makes (net_state self.old) (net_state self.new) result }
        ensures fresh { IfOk result (λ link. IsNew (sure_state link.inner) link.failing.faults) }
        ensures dialled { self.new.dialled ≡ self.old.dialled }
        ensures cause { HasCause Failed self.old.failing.faults self.new.failing.faults result }
        ensures room { IfErr result (λ fault. fault ≡ Failed) }
    {
        if self.failing.fails_now() {
            return Err(LinkFault::Failed);
        }
        if self.coming.is_empty() {
            self.failing.fail();
            return Err(LinkFault::Failed);
        }
        Ok(link_of(alloc, self.coming.remove(0)))
    }
}

fn link_of(alloc: Global, prepared: Prepared) -> MemLink
    ensures { result ≡ linked prepared }
{
    MemLink {
        inner: SureLink::new(alloc, prepared.texts),
        failing: Failing::new(prepared.failing),
    }
}

impl Link for SureLink {
    ghost state = { sure_state };

    ghost faults = { λ _. 0 };

    fn send(&mut self, alloc: Global, text: &str) -> Result<(), LinkFault> {
        let text = Text::from_text(alloc, text)?;
        self.sent.push(text)?;
        Ok(())
    }

    fn recv(&mut self, alloc: Global) -> Result<Got, LinkFault> {
        let at = self.received;
        if at >= self.texts.len() {
            self.closed = true;
            return Ok(Got::Closed);
        }
        let text = String::from_str(alloc, self.texts.as_slice()[at].as_text())?;
        self.received = at + 1;
        Ok(Got::Text(text))
    }
}

impl Link for MemLink {
    ghost state = { λ s. sure_state s.inner };

    ghost faults = { λ s. s.failing.faults };

    fn send(&mut self, alloc: Global, text: &str) -> Result<(), LinkFault> {
        if self.failing.fails_now() {
            return Err(LinkFault::Failed);
        }
        self.inner.send(alloc, text)
    }

    fn recv(&mut self, alloc: Global) -> Result<Got, LinkFault> {
        if self.failing.fails_now() {
            return Err(LinkFault::Failed);
        }
        self.inner.recv(alloc)
    }
}

impl Net for MemNet {
    type Link = MemLink;

    ghost state = { net_state };

    ghost faults = { λ s. s.failing.faults };

    fn listen(&mut self, port: u16) -> Result<u16, LinkFault> {
        if self.failing.fails_now() {
            return Err(LinkFault::Failed);
        }
        self.port = Some(port);
        Ok(port)
    }

    fn accept(&mut self, alloc: Global) -> Result<MemLink, LinkFault> {
        self.next_link(alloc)
    }

    fn dial(&mut self, alloc: Global, place: &str) -> Result<MemLink, LinkFault> {
        let place = Text::from_text(alloc, place)?;
        self.dialled.push(place)?;
        self.next_link(alloc)
    }

    fn hang_up(&mut self, link: MemLink) -> Result<(), AllocError> {
        self.failing.faults = counted(link.failing.faults != 0, self.failing.faults);
        self.closed = counted(link.inner.closed, self.closed);
        self.back.push(link)
    }
}
