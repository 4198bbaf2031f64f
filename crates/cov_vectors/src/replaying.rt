//! Folders, links and a net in memory.
use cov_commands::Ended;
use cov_io::{MemFile, MemNet, MemSink, Prepared, SureStore};
use cov_replay::serve;
use cov_text::{Items, Text};
use std::alloc::{AllocError, Global};
use std::sync::Wait;
use std::test::*;
use std::thread::Threads;

/// A script with one function over 34 offsets.
const BLOCKS: &str =
    "{\"result\":[{\"scriptId\":\"0\",\"url\":\"file:///a.js\",\"functions\":[{\"functionName\":\"\",\"isBlockCoverage\":true,\"ranges\":[{\"startOffset\":0,\"endOffset\":34,\"count\":1},{\"startOffset\":13,\"endOffset\":33,\"count\":10},{\"startOffset\":19,\"endOffset\":24,\"count\":4},{\"startOffset\":24,\"endOffset\":30,\"count\":6}]}]}]}";

/// Functions that were called once, twice and four times.
const ONCE: &str =
    "{\"result\":[{\"scriptId\":\"0\",\"url\":\"file:///a.js\",\"functions\":[{\"functionName\":\"\",\"isBlockCoverage\":true,\"ranges\":[{\"startOffset\":0,\"endOffset\":10,\"count\":1}]}]}]}";

const TWICE: &str =
    "{\"result\":[{\"scriptId\":\"0\",\"url\":\"file:///a.js\",\"functions\":[{\"functionName\":\"\",\"isBlockCoverage\":true,\"ranges\":[{\"startOffset\":0,\"endOffset\":10,\"count\":2}]}]}]}";

const FOUR_TIMES: &str =
    "{\"result\":[{\"scriptId\":\"0\",\"url\":\"file:///a.js\",\"functions\":[{\"functionName\":\"\",\"isBlockCoverage\":true,\"ranges\":[{\"startOffset\":0,\"endOffset\":10,\"count\":4}]}]}]}";

const ENABLE: &str = "{\"id\":1,\"method\":\"Profiler.enable\"}";

const START: &str =
    "{\"id\":2,\"method\":\"Profiler.startPreciseCoverage\",\"params\":{\"callCount\":true}}";

const TAKE: &str = "{\"id\":3,\"method\":\"Profiler.takePreciseCoverage\"}";

const FIRST: &str = "listening on 127.0.0.1:9229\n";

/// What a call has left.
#[derive(Drop)]
struct Left {
    ended: Ended,
    net: MemNet,
    out: MemSink,
    err: MemSink,
}

impl Left {
    fn has_written(&self, out: &str, err: &str) -> bool {
        self.out.inner.bytes.as_slice() == out.as_bytes()
            && self.err.inner.bytes.as_slice() == err.as_bytes()
    }

    /// Whether these texts were sent over the link at this place of those handed back.
    fn has_sent(&self, place: usize, texts: &[&str]) -> bool {
        match self.net.back.as_slice().get(place) {
            Some(link) => {
                let sent = link.inner.sent.as_slice();
                sent.len() == texts.len()
                    && sent
                        .iter()
                        .zip(texts)
                        .all(|(one, other)| one.as_text() == *other)
            }
            None => false,
        }
    }
}

fn numbers(alloc: Global, number: Option<u64>) -> Result<Items<u64>, AllocError> {
    let mut all = Items::new(alloc);
    if let Some(number) = number {
        all.push(number)?;
    }
    Ok(all)
}

/// A folder `cov` with these files.
fn folder(alloc: Global, files: &[(&str, &str)]) -> Result<SureStore, AllocError> {
    let mut folders = Items::new(alloc);
    folders.push(Text::from_text(alloc, "cov")?)?;
    let mut all = Items::new(alloc);
    for (path, text) in files {
        all.push(MemFile {
            path: Text::from_text(alloc, path)?,
            bytes: Items::from_slice(alloc, text.as_bytes())?,
        })?;
    }
    Ok(SureStore {
        folders,
        files: all,
    })
}

/// A link over which these texts will come, and whose call of this number will fail.
fn link(alloc: Global, texts: &[&str], failing: Option<u64>) -> Result<Prepared, AllocError> {
    let mut all = Items::new(alloc);
    for text in texts {
        all.push(Text::from_text(alloc, text)?)?;
    }
    Ok(Prepared {
        texts: all,
        failing: numbers(alloc, failing)?,
    })
}

/// Plays the folder at port 9229 to so many sessions over these links. The call of this number of the output fails.
fn served<R: Threads + Wait + Sync>(
    rt: &R,
    alloc: Global,
    files: &[(&str, &str)],
    coming: Vec<Prepared>,
    sessions: u32,
    failing: Option<u64>,
) -> Result<Left, AllocError> {
    let mut store = folder(alloc, files)?;
    let mut net = MemNet::new(alloc, coming, Items::new(alloc));
    let mut out = MemSink::new(alloc, numbers(alloc, failing)?);
    let mut err = MemSink::new(alloc, Items::new(alloc));
    let sessions = sessions.max(1);
    let ended = serve(
        rt, alloc, &mut store, &mut net, &mut out, &mut err, "cov", 9229, sessions, 1,
    );
    Ok(Left {
        ended,
        net,
        out,
        err,
    })
}

#[test]
fn a_client_takes_one_frame(rt: HostRuntime) -> Result<(), Fail> {
    let alloc = rt.alloc();
    let mut coming = Vec::new(alloc);
    coming.push(link(alloc, &[ENABLE, START, TAKE], None)?)?;
    let left = served(&rt, alloc, &[("cov/a.json", BLOCKS)], coming, 1, None)?;
    assert_eq!(rt; left.ended, Ended::Done);
    assert!(rt;
        left.has_written(
            "listening on 127.0.0.1:9229\nplayed 1 replied 1 discarded 0 unwatched 0 held 0\n",
            ""
        )
    );
    assert!(rt;
        left.has_sent(
            0,
            &[
                "{\"id\":1,\"result\":{}}",
                "{\"id\":2,\"result\":{\"timestamp\":0}}",
                "{\"id\":3,\"result\":{\"result\":[{\"functions\":[{\"functionName\":\"\",\"isBlockCoverage\":false,\"ranges\":[{\"count\":1,\"endOffset\":34,\"startOffset\":0}]}],\"scriptId\":\"0\",\"url\":\"file:///a.js\"}],\"timestamp\":0}}",
            ]
        )
    );
    assert!(rt; left.net.closed == 1 && left.net.failing.faults == 0);
    Ok(())
}

#[test]
fn each_take_has_the_next_frame(rt: HostRuntime) -> Result<(), Fail> {
    let alloc = rt.alloc();
    let files = &[
        ("cov/a.json", ONCE),
        ("cov/b.json", TWICE),
        ("cov/b.txt", TWICE),
        ("cov/bad.json", "{"),
        ("cov/c.json", FOUR_TIMES),
    ];
    let mut coming = Vec::new(alloc);
    coming.push(link(
        alloc,
        &[
            ENABLE,
            START,
            TAKE,
            "{\"id\":4,\"method\":\"Profiler.takePreciseCoverage\"}",
            "{\"id\":5,\"method\":\"Profiler.takePreciseCoverage\"}",
        ],
        None,
    )?)?;
    let left = served(&rt, alloc, files, coming, 1, None)?;
    assert_eq!(rt; left.ended, Ended::SomeRefused);
    assert!(rt;
        left.has_written(
            "listening on 127.0.0.1:9229\nplayed 3 replied 3 discarded 0 unwatched 0 held 0\n",
            "refused cov/bad.json: syntax\n"
        )
    );
    assert!(rt;
        left.has_sent(
            0,
            &[
                "{\"id\":1,\"result\":{}}",
                "{\"id\":2,\"result\":{\"timestamp\":0}}",
                "{\"id\":3,\"result\":{\"result\":[{\"functions\":[{\"functionName\":\"\",\"isBlockCoverage\":false,\"ranges\":[{\"count\":1,\"endOffset\":10,\"startOffset\":0}]}],\"scriptId\":\"0\",\"url\":\"file:///a.js\"}],\"timestamp\":0}}",
                "{\"id\":4,\"result\":{\"result\":[{\"functions\":[{\"functionName\":\"\",\"isBlockCoverage\":false,\"ranges\":[{\"count\":2,\"endOffset\":10,\"startOffset\":0}]}],\"scriptId\":\"0\",\"url\":\"file:///a.js\"}],\"timestamp\":0}}",
                "{\"id\":5,\"result\":{\"result\":[{\"functions\":[{\"functionName\":\"\",\"isBlockCoverage\":false,\"ranges\":[{\"count\":4,\"endOffset\":10,\"startOffset\":0}]}],\"scriptId\":\"0\",\"url\":\"file:///a.js\"}],\"timestamp\":0}}",
            ]
        )
    );
    Ok(())
}

#[test]
fn a_link_that_does_not_come_is_told(rt: HostRuntime) -> Result<(), Fail> {
    let alloc = rt.alloc();
    let mut coming = Vec::new(alloc);
    coming.push(link(alloc, &[ENABLE], None)?)?;
    let left = served(&rt, alloc, &[("cov/a.json", ONCE)], coming, 2, None)?;
    assert_eq!(rt; left.ended, Ended::LinkFault);
    assert!(rt; left.has_written(FIRST, ""));
    assert!(rt; left.has_sent(0, &[]) && left.net.back.len() == 1);
    Ok(())
}

#[test]
fn a_link_that_closes_at_once_plays_nothing(rt: HostRuntime) -> Result<(), Fail> {
    let alloc = rt.alloc();
    let mut coming = Vec::new(alloc);
    coming.push(link(alloc, &[], None)?)?;
    let left = served(&rt, alloc, &[("cov/a.json", ONCE)], coming, 1, None)?;
    assert_eq!(rt; left.ended, Ended::Done);
    assert!(rt;
        left.has_written(
            "listening on 127.0.0.1:9229\nplayed 0 replied 0 discarded 0 unwatched 0 held 0\n",
            ""
        )
    );
    Ok(())
}

#[test]
fn a_link_that_fails_ends_the_command_behind_the_others(rt: HostRuntime) -> Result<(), Fail> {
    let alloc = rt.alloc();
    let mut coming = Vec::new(alloc);
    coming.push(link(alloc, &[ENABLE], Some(1))?)?;
    coming.push(link(alloc, &[], None)?)?;
    let left = served(&rt, alloc, &[("cov/a.json", ONCE)], coming, 2, None)?;
    assert_eq!(rt; left.ended, Ended::LinkFault);
    assert!(rt; left.has_written(FIRST, ""));
    assert!(rt; left.net.back.len() == 2 && left.net.closed == 1 && left.net.failing.faults == 1);
    Ok(())
}

#[test]
fn an_output_that_fails_lets_nobody_in(rt: HostRuntime) -> Result<(), Fail> {
    let alloc = rt.alloc();
    let mut coming = Vec::new(alloc);
    coming.push(link(alloc, &[ENABLE], None)?)?;
    let left = served(&rt, alloc, &[("cov/a.json", ONCE)], coming, 1, Some(0))?;
    assert_eq!(rt; left.ended, Ended::WriteFault);
    assert!(rt; left.net.coming.len() == 1 && left.net.back.is_empty());
    Ok(())
}

#[test]
fn refusals_are_sent_in_order(rt: HostRuntime) -> Result<(), Fail> {
    let alloc = rt.alloc();
    let mut coming = Vec::new(alloc);
    coming.push(link(
        alloc,
        &[
            "{",
            "{\"id\":1}",
            "{\"id\":2,\"method\":\"Debugger.enable\"}",
            "{\"id\":3,\"method\":\"Profiler.startPreciseCoverage\",\"params\":{\"callCount\":1}}",
            "{\"id\":4,\"method\":\"Profiler.startPreciseCoverage\"}",
            "{\"id\":5,\"method\":\"Profiler.takePreciseCoverage\"}",
        ],
        None,
    )?)?;
    let left = served(&rt, alloc, &[("cov/a.json", ONCE)], coming, 1, None)?;
    assert_eq!(rt; left.ended, Ended::Done);
    assert!(rt;
        left.has_sent(
            0,
            &[
                "{\"error\":{\"code\":-32700,\"message\":\"Parse error\"}}",
                "{\"error\":{\"code\":-32600,\"message\":\"Invalid request\"},\"id\":1}",
                "{\"error\":{\"code\":-32601,\"message\":\"Method not found\"},\"id\":2}",
                "{\"error\":{\"code\":-32602,\"message\":\"Invalid params\"},\"id\":3}",
                "{\"error\":{\"code\":-32000,\"message\":\"Profiler is not enabled.\"},\"id\":4}",
                "{\"error\":{\"code\":-32000,\"message\":\"Precise coverage has not been started.\"},\"id\":5}",
            ]
        )
    );
    Ok(())
}
