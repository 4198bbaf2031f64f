//! Links that wait for each other.
ghost use Rattle.std.specs.Prelude.{◌≡◌, None, IfOk, IfErr};
ghost use Rattle.cov_io.specs.declared.link.LinkFault.TheVariants.{NoMemory};
ghost use Rattle.cov_io.specs.Links.{IsNew};
ghost use Rattle.cov_io.specs.MemoryLinks.{sure_state};

use cov_io::{Got, Link, LinkFault, Net, SureLink, counted};
use cov_text::{Items, Text};
use std::alloc::{AllocError, Global};
use std::sync::{Condvar, Mutex, Wait};
use std::time::{Clock, Duration};

/// How many links meet.
const LINKS: u32 = 2;

/// How long a link waits for the other one before it gives up.
const SECONDS: u64 = 20;

/// Where links meet: how many of them have sent a text.
#[derive(Drop)]
pub(crate) struct Meeting {
    came: Mutex<u32>,
    changed: Condvar,
}

/// A link that, once a text was sent over it, receives none before a text was sent over the other one too.
#[derive(Drop)]
pub(crate) struct MeetingLink<'a, R: Drop> {
    rt: R,
    meeting: &'a Meeting,
    inner: SureLink,
    /// Whether it has waited in vain.
    late: bool,
}

/// A net of such links, over each of which the same texts come. It tells no content, and never fails.
#[derive(Drop)]
pub(crate) struct MeetingNet<'a, R: Drop> {
    rt: R,
    meeting: &'a Meeting,
    texts: &'a [&'a str],
    port: Option<u16>,
    closed: u64,
    /// How many links that were handed back have waited in vain.
    late: u64,
}

impl Meeting {
    /// A meeting to which no link has come.
    pub(crate) fn new() -> Meeting {
        Meeting {
            came: Mutex::new(0),
            changed: Condvar::new(),
        }
    }

    // One more link has sent its first text.
    fn come<R: Wait>(&self, rt: &R) {
        let mut came = self.came.lock(rt);
        *came = came.saturating_add(1);
        self.changed.notify_all();
    }

    // Whether all links have come before the time was up.
    fn is_whole<R: Wait + Clock>(&self, rt: &R) -> bool {
        let longest = Duration::from_secs(SECONDS);
        let came = self.came.lock(rt);
        let (_, ended) = self
            .changed
            .wait_timeout_while(rt, came, longest, |came| *came < LINKS);
        !ended.timed_out()
    }
}

impl<'a, R: Drop> MeetingNet<'a, R> {
    /// A net over whose links these texts come.
    pub(crate) fn new(rt: R, meeting: &'a Meeting, texts: &'a [&'a str]) -> MeetingNet<'a, R> {
        MeetingNet {
            rt,
            meeting,
            texts,
            port: None,
            closed: 0,
            late: 0,
        }
    }

    /// How many links that were handed back have waited in vain.
    pub(crate) fn late(&self) -> u64 {
        self.late
    }
}

impl<'a, R: Copy + Drop> MeetingNet<'a, R> {
    // A new link, by listening or by dialling.
    fn next_link(&self, alloc: Global) -> Result<MeetingLink<'a, R>, LinkFault>
        ensures fresh { IfOk result (λ link. IsNew (sure_state link.inner) 0) }
        ensures room { IfErr result (λ fault. fault ≡ NoMemory) }
    {
        let mut texts = Items::new(alloc);
        for text in self.texts {
            texts.push(Text::from_text(alloc, text)?)?;
        }
        Ok(MeetingLink {
            rt: self.rt,
            meeting: self.meeting,
            inner: SureLink::new(alloc, texts),
            late: false,
        })
    }
}

impl<'a, R: Wait + Clock + Drop> Link for MeetingLink<'a, R> {
    ghost state = { λ s. sure_state s.inner };

    ghost faults = { λ _. 0 };

    fn send(&mut self, alloc: Global, text: &str) -> Result<(), LinkFault> {
        let is_first = self.inner.sent.is_empty();
        self.inner.send(alloc, text)?;
        if is_first {
            self.meeting.come(&self.rt);
        }
        Ok(())
    }

    fn recv(&mut self, alloc: Global) -> Result<Got, LinkFault> {
        if !self.inner.sent.is_empty() && !self.late {
            self.late = !self.meeting.is_whole(&self.rt);
        }
        self.inner.recv(alloc)
    }
}

impl<'a, R: Wait + Clock + Copy + Drop> Net for MeetingNet<'a, R> {
    type Link = MeetingLink<'a, R>;

    ghost state = { λ s. record { coming = None; dialled = None; back = None; port = s.port; closed = s.closed } };

    ghost faults = { λ _. 0 };

    fn listen(&mut self, port: u16) -> Result<u16, LinkFault> {
        self.port = Some(port);
        Ok(port)
    }

    fn accept(&mut self, alloc: Global) -> Result<Self::Link, LinkFault> {
        self.next_link(alloc)
    }

    fn dial(&mut self, alloc: Global, _place: &str) -> Result<Self::Link, LinkFault> {
        self.next_link(alloc)
    }

    fn hang_up(&mut self, link: Self::Link) -> Result<(), AllocError> {
        self.closed = counted(link.inner.closed, self.closed);
        self.late = counted(link.late, self.late);
        Ok(())
    }
}
