//! Reading the words of `serve` and `attach`.
ghost use Rattle.std.specs.Prelude.{◌≡◌, None, Some, map, string_bytes, IfOk, IfErr};
ghost use Rattle.cov_words.specs.Live.{HasBounds, attach_app, attach_from, live_of, serve_app, serve_from};
ghost use Rattle.cov_words.specs.Simple.{attach_is_simple, serve_is_simple};

use crate::asking::{Asking, read_asked};
use crate::child::{many, values};
use crate::options::{number, number_in};
use crate::reading::{value, wanted};
use crate::{Live, WordsFault};
use clap::ArgMatches;
use std::alloc::{AllocError, Global};

/// What the words ask to do over links.
///
/// `WordsFault::Usage` comes exactly where the words are no `serve` and no `attach`, also where they ask for help, and
/// `WordsFault::NoMemory` only for want of memory.
#[tactic(auto, unfolding(crate::specs::Live::live_of))]
pub fn read_live(alloc: Global, words: &[String]) -> Result<Live, WordsFault>
    ensures ok { IfOk result (λ live. live_of (map string_bytes words.now) ≡ Some live) }
    ensures usage { IfErr result (λ fault. fault ≡ WordsFault.Usage
        → live_of (map string_bytes words.now) ≡ None) }
    ensures bounds { IfOk result HasBounds }
{
    match words {
        [] => Err(WordsFault::Usage),
        [name, ..] => {
            let name = name.as_str();
            if name == "serve" {
                read_asked::<ServeWords>(alloc, words)
            } else if name == "attach" {
                read_asked::<AttachWords>(alloc, words)
            } else {
                Err(WordsFault::Usage)
            }
        }
    }
}

/// `serve FOLDER --port P --sessions N --pace K`.
pub(crate) struct ServeWords;

impl Asking for ServeWords {
    type Told = Live;

    ghost app = { serve_app };

    ghost from = { serve_from };

    ghost within = { HasBounds };

    ghost simple = { serve_is_simple };

    fn command<'a>(alloc: Global) -> Result<clap::Command<'a>, AllocError> {
        let command = clap::Command::new(alloc, "serve").arg(wanted(alloc, "folder"))?;
        let command = command.arg(number(alloc, "port", 0, 65535, "0"))?;
        let command = command.arg(number(alloc, "sessions", 1, 64, "1"))?;
        command.arg(number(alloc, "pace", 0, 1000, "1"))
    }

    fn told(alloc: Global, matches: &ArgMatches<'_>) -> Result<Live, WordsFault> {
        let folder = match value(alloc, matches, "folder") {
            Ok(folder) => folder,
            Err(fault) => return Err(fault),
        };
        let port = match number_in(matches, "port", 0, 65535) {
            Ok(port) => port,
            Err(fault) => return Err(fault),
        };
        let sessions = match number_in(matches, "sessions", 1, 64) {
            Ok(sessions) => sessions,
            Err(fault) => return Err(fault),
        };
        match number_in(matches, "pace", 0, 1000) {
            Ok(pace) => Ok(Live::Serve {
                folder,
                port: port as u16,
                sessions: sessions as u32,
                pace: pace as u32,
            }),
            Err(fault) => Err(fault),
        }
    }
}

/// `attach PLACE.. --takes N`.
pub(crate) struct AttachWords;

impl Asking for AttachWords {
    type Told = Live;

    ghost app = { attach_app };

    ghost from = { attach_from };

    ghost within = { HasBounds };

    ghost simple = { attach_is_simple };

    fn command<'a>(alloc: Global) -> Result<clap::Command<'a>, AllocError> {
        let command = clap::Command::new(alloc, "attach").arg(many(alloc, "place"))?;
        command.arg(number(alloc, "takes", 1, 1000, "1"))
    }

    fn told(alloc: Global, matches: &ArgMatches<'_>) -> Result<Live, WordsFault> {
        let places = match values(alloc, matches, "place") {
            Ok(places) => places,
            Err(fault) => return Err(fault),
        };
        match number_in(matches, "takes", 1, 1000) {
            Ok(takes) => Ok(Live::Attach {
                places,
                takes: takes as u32,
            }),
            Err(fault) => Err(fault),
        }
    }
}
