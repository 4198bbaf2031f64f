//! A case as it is played: its files, the calls that are to fail, and what came so far.
use cov_io::{
    Failing, MemFile, MemNet, MemSink, MemSpawner, MemStore, NoGate, Prepared, SureStore,
};
use cov_live::run;
use cov_text::{Items, Text};
use std::alloc::{AllocError, Global};
use std::sync::Wait;
use std::thread::Threads;

/// Where a line of a case stands.
#[derive(Clone, Copy)]
enum Place {
    /// Between the others, where notes and empty lines stand.
    Between,
    /// In the text of a file.
    Text,
    /// In the texts that come over a link.
    Link,
    /// In what a run is to give.
    Wanted,
}

/// The case so far.
#[derive(Drop)]
struct Stage {
    alloc: Global,
    store: MemStore,
    net: MemNet,
    spawner: MemSpawner,
    out: MemSink,
    err: MemSink,
    place: Place,
    /// The file whose text is being read, and its text.
    path: String,
    text: String,
    /// The case as it comes when it is played.
    given: String,
}

/// A case as it comes when it is played: its own lines, and behind each run what the run gave. A line that has no meaning where
/// it stands is left out.
pub(crate) fn played<R: Threads + Wait + Sync>(
    rt: &R,
    alloc: Global,
    case: &str,
) -> Result<String, AllocError> {
    let mut stage = Stage {
        alloc,
        store: MemStore::new(
            SureStore {
                folders: Items::new(alloc),
                files: Items::new(alloc),
            },
            Items::new(alloc),
        ),
        net: MemNet::new(alloc, Vec::new(alloc), Items::new(alloc)),
        spawner: MemSpawner::new(alloc, 0, Items::new(alloc)),
        out: MemSink::new(alloc, Items::new(alloc)),
        err: MemSink::new(alloc, Items::new(alloc)),
        place: Place::Between,
        path: String::new(alloc),
        text: String::new(alloc),
        given: String::new(alloc),
    };
    for line in case.split_terminator('\n') {
        stage.take(rt, line)?;
    }
    let Stage { given, .. } = stage;
    Ok(given)
}

impl Stage {
    // Takes the next line of the case.
    fn take<R: Threads + Wait + Sync>(&mut self, rt: &R, line: &str) -> Result<(), AllocError> {
        if let Some(path) = line.strip_prefix("== ") {
            self.end_text()?;
            self.put(line)?;
            self.path = String::from_str(self.alloc, path)?;
            self.place = Place::Text;
        } else if let Some(calls) = line.strip_prefix("@ link") {
            self.end_text()?;
            self.put(line)?;
            self.put_link(calls)?;
            self.place = Place::Link;
        } else if let Some(call) = line.strip_prefix("! ") {
            self.end_text()?;
            self.put(line)?;
            self.let_be(call)?;
            self.place = Place::Between;
        } else if let Some(words) = line.strip_prefix("$") {
            self.end_text()?;
            self.put(line)?;
            self.play(rt, words)?;
            self.place = Place::Wanted;
        } else {
            self.take_within(line)?;
        }
        Ok(())
    }

    // Takes a line that begins no other part.
    fn take_within(&mut self, line: &str) -> Result<(), AllocError> {
        let is_end = line.starts_with("= ");
        match self.place {
            Place::Between if line.is_empty() || line.starts_with("#") => self.put(line)?,
            Place::Text if !is_end => {
                self.text.push_str(line)?;
                self.text.push_str("\n")?;
                self.put(line)?;
            }
            Place::Link if !is_end => {
                self.put_come(line)?;
                self.put(line)?;
            }
            Place::Wanted if is_end => self.place = Place::Between,
            _ => {}
        }
        Ok(())
    }

    // Puts the file whose text has ended into the store. The end of its last line is the format's.
    fn end_text(&mut self) -> Result<(), AllocError> {
        if let Place::Text = self.place {
            self.text.pop();
            let path = self.path.clone()?;
            match path.as_str().rsplit_once(" times ") {
                Some((path, times)) => self.put_files(path, times)?,
                None => self.put_file(path.as_str())?,
            }
            self.text.clear();
        }
        Ok(())
    }

    // Puts so many files of the text so far into the store, whose paths have their numbers for the star.
    fn put_files(&mut self, path: &str, times: &str) -> Result<(), AllocError> {
        for number in 0..times.parse::<u32>().unwrap_or(0) {
            let number = format!(in self.alloc; "{number}")?;
            let path = path.replace(self.alloc, "*", number.as_str())?;
            self.put_file(path.as_str())?;
        }
        Ok(())
    }

    // Puts a file of the text so far into the store.
    fn put_file(&mut self, path: &str) -> Result<(), AllocError> {
        let file = given_file(self.alloc, path, self.text.as_str())?;
        add_file(self.alloc, &mut self.store.inner, file)
    }

    // Lets the net of the next run have one link more, over which nothing comes so far, and of which these calls fail.
    fn put_link(&mut self, calls: &str) -> Result<(), AllocError> {
        let mut failing = Items::new(self.alloc);
        for call in calls.split(' ') {
            if let Ok(number) = call.parse::<u64>() {
                failing.push(number)?;
            }
        }
        let link = Prepared {
            texts: Items::new(self.alloc),
            failing,
        };
        let _ = self.net.coming.push(link);
        Ok(())
    }

    // Lets a text come over the last link of the net, or one so many times.
    fn put_come(&mut self, line: &str) -> Result<(), AllocError> {
        let (times, text) = match line.split_once(" times ") {
            Some((times, text)) => (times.parse::<u32>().unwrap_or(0), text),
            None => (1, line),
        };
        if let Some(link) = self.net.coming.last_mut() {
            for _ in 0..times {
                link.texts.push(Text::from_text(self.alloc, text)?)?;
            }
        }
        Ok(())
    }

    // Lets a call of the next run fail, or its program end with a status.
    fn let_be(&mut self, call: &str) -> Result<(), AllocError> {
        if let Some((object, number)) = call.split_once(' ')
            && let Ok(number) = number.parse::<u64>()
        {
            match object {
                "program" => self.spawner.inner.status = (number % 256) as u8,
                "net" => self.net.failing.numbers.push(number)?,
                "spawner" => self.spawner.failing.numbers.push(number)?,
                "store" => self.store.failing.numbers.push(number)?,
                "out" => self.out.failing.numbers.push(number)?,
                "err" => self.err.failing.numbers.push(number)?,
                _ => {}
            }
        }
        Ok(())
    }

    // Runs the command of these words over the files so far, and lets no call of the next run fail.
    fn play<R: Threads + Wait + Sync>(&mut self, rt: &R, words: &str) -> Result<(), AllocError> {
        let words = words_of(self.alloc, words)?;
        let ended = run(
            rt,
            self.alloc,
            words.as_slice(),
            &mut self.store,
            &NoGate,
            &mut self.net,
            &mut self.spawner,
            &mut self.out,
            &mut self.err,
        );
        self.put_ran()?;
        self.put_linked()?;
        put_part(&mut self.given, "-- out", &self.out)?;
        put_part(&mut self.given, "-- err", &self.err)?;
        let (code, calls) = (ended.code(), self.store.failing.calls);
        let line = format!(in self.alloc; "= {code} {ended:?}, {calls} calls")?;
        self.put(line.as_str())?;
        self.net = MemNet::new(self.alloc, Vec::new(self.alloc), Items::new(self.alloc));
        self.spawner = MemSpawner::new(self.alloc, 0, Items::new(self.alloc));
        self.store.failing = Failing::new(Items::new(self.alloc));
        self.out = MemSink::new(self.alloc, Items::new(self.alloc));
        self.err = MemSink::new(self.alloc, Items::new(self.alloc));
        Ok(())
    }

    // Puts the words of the programs that were run, where any were.
    fn put_ran(&mut self) -> Result<(), AllocError> {
        for words in self.spawner.inner.ran.as_slice() {
            put_line(&mut self.given, "-- ran")?;
            for word in words.as_slice() {
                put_line(&mut self.given, word.as_text())?;
            }
        }
        Ok(())
    }

    // Puts the places that were dialled, and of each link that was handed back what was sent over it.
    fn put_linked(&mut self) -> Result<(), AllocError> {
        for place in self.net.dialled.as_slice() {
            let line = format!(in self.alloc; "-- dialled {}", place.as_text())?;
            put_line(&mut self.given, line.as_str())?;
        }
        for link in self.net.back.as_slice() {
            put_line(&mut self.given, "-- sent")?;
            for text in link.inner.sent.as_slice() {
                put_line(&mut self.given, text.as_text())?;
            }
        }
        Ok(())
    }

    fn put(&mut self, line: &str) -> Result<(), AllocError> {
        put_line(&mut self.given, line)
    }
}

// A file of this text, or, where that is said behind its path, of the bytes that the text has in hex.
fn given_file(alloc: Global, path: &str, text: &str) -> Result<MemFile, AllocError> {
    let (path, bytes) = match path.strip_suffix(" in hex") {
        Some(path) => (path, bytes_in_hex(alloc, text)?),
        None => (path, Items::from_slice(alloc, text.as_bytes())?),
    };
    Ok(MemFile {
        path: Text::from_text(alloc, path)?,
        bytes,
    })
}

// The bytes whose hex digits stand in a text, with a space between two bytes.
fn bytes_in_hex(alloc: Global, text: &str) -> Result<Items<u8>, AllocError> {
    let mut bytes = Items::new(alloc);
    for digits in text.split(' ') {
        if let Ok(byte) = u8::from_str_radix(digits, 16) {
            bytes.push(byte)?;
        }
    }
    Ok(bytes)
}

// Adds a file, and the folder that it is in. A path that ends in a slash is a folder alone.
fn add_file(alloc: Global, store: &mut SureStore, file: MemFile) -> Result<(), AllocError> {
    let path = file.path.as_text();
    if let Some((folder, _)) = path.rsplit_once('/') {
        store.folders.push(Text::from_text(alloc, folder)?)?;
    }
    if !path.ends_with("/") {
        store.files.push(file)?;
    }
    Ok(())
}

fn put_line(given: &mut String, line: &str) -> Result<(), AllocError> {
    given.push_str(line)?;
    given.push_str("\n")?;
    Ok(())
}

// Puts what a sink holds under its name, where it holds something.
fn put_part(given: &mut String, name: &str, sink: &MemSink) -> Result<(), AllocError> {
    if !sink.inner.bytes.is_empty() {
        put_line(given, name)?;
        put_line(
            given,
            str::from_utf8(sink.inner.bytes.as_slice()).unwrap_or("(not UTF-8)"),
        )?;
    }
    Ok(())
}

// The words of a line, at its spaces. '' stands for the empty word.
fn words_of(alloc: Global, line: &str) -> Result<Vec<String>, AllocError> {
    let mut words = Vec::new(alloc);
    for word in line.split(' ') {
        if !word.is_empty() {
            let word = if word == "''" { "" } else { word };
            words.push(String::from_str(alloc, word)?)?;
        }
    }
    Ok(words)
}
