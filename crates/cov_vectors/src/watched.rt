//! A sink whose first line another thread waits for.
ghost use Rattle.std.specs.Prelude.{None};

use cov_io::{Sink, SinkFault};
use std::alloc::{AllocError, Global};
use std::sync::{Condvar, Mutex, Wait};

/// What was written so far, and whether no more comes.
#[derive(Drop)]
struct Written {
    bytes: Vec<u8>,
    ended: bool,
}

/// A page that one thread writes and another one reads.
#[derive(Drop)]
pub(crate) struct Page {
    written: Mutex<Written>,
    changed: Condvar,
}

/// A sink that writes on a page. It tells no content, and never fails.
#[derive(Drop)]
pub(crate) struct Watched<'a, R: Drop> {
    rt: R,
    page: &'a Page,
}

/// The first line of a text without its end, and what follows it.
pub(crate) fn first_line(bytes: &[u8]) -> Option<(&str, &str)> {
    let Ok(text) = str::from_utf8(bytes) else {
        return None;
    };
    text.split_once('\n')
}

impl Page {
    /// An empty page.
    pub(crate) fn new(alloc: Global) -> Page {
        Page {
            written: Mutex::new(Written {
                bytes: Vec::new(alloc),
                ended: false,
            }),
            changed: Condvar::new(),
        }
    }

    /// Waits for the first line, and gives it. It is empty where the page ends before.
    pub(crate) fn wait_for_line<R: Wait>(
        &self,
        rt: &R,
        alloc: Global,
    ) -> Result<String, AllocError> {
        let written = self
            .changed
            .wait_while(rt, self.written.lock(rt), |written| {
                !written.ended && first_line(written.bytes.as_slice()).is_none()
            });
        match first_line(written.bytes.as_slice()) {
            Some((line, _)) => String::from_str(alloc, line),
            None => Ok(String::new(alloc)),
        }
    }

    /// Tells that no more comes.
    pub(crate) fn end<R: Wait>(&self, rt: &R) {
        self.written.lock(rt).ended = true;
        self.changed.notify_all();
    }

    /// All that was written.
    pub(crate) fn into_bytes(self) -> Vec<u8> {
        self.written.into_inner().bytes
    }

    // Writes a piece, and lets all who wait look again.
    fn put<R: Wait>(&self, rt: &R, piece: &[u8]) -> Result<(), AllocError> {
        self.written.lock(rt).bytes.extend_from_slice(piece)?;
        self.changed.notify_all();
        Ok(())
    }
}

impl<'a, R: Drop> Watched<'a, R> {
    /// A sink that writes on this page.
    pub(crate) fn new(rt: R, page: &'a Page) -> Watched<'a, R> {
        Watched { rt, page }
    }
}

impl<'a, R: Wait + Drop> Sink for Watched<'a, R> {
    ghost held = { λ _. None };

    ghost faults = { λ _. 0 };

    fn write(&mut self, piece: &[u8]) -> Result<(), SinkFault> {
        Ok(self.page.put(&self.rt, piece)?)
    }
}
