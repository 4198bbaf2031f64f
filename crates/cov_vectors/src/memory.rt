//! How a command ends where memory is wanted.
use cov_commands::{Ended, run_tool};
use cov_io::{MemFile, MemSink, MemStore, SureStore};
use cov_text::{Items, Text};
use std::alloc::{AllocError, Global};
use std::process::Abort;
use std::test::Fail;

/// A command, and what is due.
#[derive(Drop)]
struct Run<'a> {
    words: [&'a str; 2],
    out: &'a str,
    err: &'a str,
    ended: Ended,
}

const CROSSING: &str =
    "{\"result\":[{\"functions\":[{\"functionName\":\"\",\"isBlockCoverage\":true,\"ranges\":[{\"count\":1,\"endOffset\":10,\"startOffset\":0},{\"count\":1,\"endOffset\":6,\"startOffset\":2},{\"count\":1,\"endOffset\":8,\"startOffset\":4}]}],\"scriptId\":\"0\",\"url\":\"file:///a.js\"}]}";

/// A normal file of one function that was called once.
pub(crate) const GOOD: &str =
    "{\"result\":[{\"functions\":[{\"functionName\":\"\",\"isBlockCoverage\":true,\"ranges\":[{\"count\":1,\"endOffset\":10,\"startOffset\":0}]}],\"scriptId\":\"0\",\"url\":\"file:///a.js\"}]}";

const MAPPED: &str =
    "{\"result\":[{\"functions\":[{\"functionName\":\"\",\"isBlockCoverage\":true,\"ranges\":[{\"count\":1,\"endOffset\":10,\"startOffset\":0},{\"count\":0,\"endOffset\":9,\"startOffset\":5}]}],\"url\":\"file:///app/out.js\"},{\"url\":\"node:fs\",\"functions\":[]}],\"source-map-cache\":{\"file:///app/out.js\":{\"lineLengths\":[4,4,0],\"data\":{\"version\":3,\"sources\":[\"file:///app/in.ts\"],\"sourcesContent\":[\"a();\\n// note\\nb();\\n\"],\"names\":[],\"mappings\":\"AAAA;AAEA\"}}}}";

const TABLE: &str =
    "File       |  Lines | Branch |  Funcs | Uncovered\nAll files  |  50.00 |  50.00 | 100.00\n/app/in.ts |  50.00 |  50.00 | 100.00 | 3\n";

pub(crate) fn store_of(alloc: Global, given: &[(&str, &str)]) -> Result<MemStore, AllocError> {
    let mut folders = Items::new(alloc);
    folders.push(Text::from_text(alloc, "cov")?)?;
    folders.push(Text::from_text(alloc, "maps")?)?;
    let mut files = Items::new(alloc);
    for (path, text) in given {
        files.push(MemFile {
            path: Text::from_text(alloc, path)?,
            bytes: Items::from_slice(alloc, text.as_bytes())?,
        })?;
    }
    let inner = SureStore { folders, files };
    Ok(MemStore::new(inner, Items::new(alloc)))
}

// Whether the command has ended as is due. Else memory was wanted, and no more than a part of what is due was written.
fn ends<R: Abort + AllocGlobal>(rt: &R, store: &mut MemStore, run: &Run<'_>) -> Result<bool, Fail> {
    let alloc = rt.alloc();
    let mut words = Vec::new(alloc);
    for word in run.words {
        words.push(String::from_str(alloc, word)?)?;
    }
    let mut out = MemSink::new(alloc, Items::new(alloc));
    let mut err = MemSink::new(alloc, Items::new(alloc));
    let answer = run_tool(alloc, words.as_slice(), store, &mut out, &mut err);
    let written = out.inner.bytes.as_slice();
    if answer == Ended::NoMemory {
        assert!(rt;
            run.out.as_bytes().starts_with(written),
            "a part of the output"
        );
        return Ok(false);
    }
    assert_eq!(rt; answer, run.ended);
    assert!(rt; written == run.out.as_bytes(), "the output");
    assert!(rt;
        err.inner.bytes.as_slice() == run.err.as_bytes(),
        "the error sink"
    );
    Ok(true)
}

// Each command runs twice. Where one allocation is refused in all, one of the two ends as is due, and the other does so too, or
// says that memory was wanted.
#[test]
fn want_of_memory_turns_into_no_other_answer(rt: HostRuntime) -> Result<(), Fail> {
    let files = [
        ("cov/a.json", GOOD),
        ("cov/b.json", CROSSING),
        ("maps/a.json", MAPPED),
    ];
    let mut store = store_of(rt.alloc(), files.as_slice())?;
    let runs = [
        Run {
            words: ["merge", "cov"],
            out: GOOD,
            err: "refused cov/b.json: ranges at script 0 function 0: range 2 crosses range 1\n",
            ended: Ended::SomeRefused,
        },
        Run {
            words: ["report", "maps"],
            out: TABLE,
            err: "skipped node:fs: not a file\n",
            ended: Ended::Done,
        },
    ];
    for run in &runs {
        let first = ends(&rt, &mut store, run)?;
        let second = ends(&rt, &mut store, run)?;
        assert!(&rt; first || second, "one want of memory in two runs");
    }
    Ok(())
}
