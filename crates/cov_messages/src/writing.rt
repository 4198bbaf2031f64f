//! JSON values of scripts, functions and ranges.
ghost use Rattle.std.specs.Prelude.{◌≡◌, IfOk};
ghost use Rattle.serde_json.specs.Data.{Data, array};
ghost use Rattle.serde_json.specs.View.{view};
ghost use Rattle.json_shapes.specs.Shapes.{array_of};
ghost use Rattle.cov_model.specs.File.{range_data, report_data, entry_data, scripts_data};

use cov_model::{Entry, FunctionReport, Range, Snapshot};
use serde_json::{Value, json};
use std::alloc::{AllocError, Global};

// What has a JSON value of its own.
trait Shown {
    ghost shown: { Self → Data };

    fn value(&self, alloc: Global) -> Result<Value, AllocError>
        ensures { IfOk result (λ value. view value ≡ shown self.now) };
}

impl Shown for Range {
    ghost shown = { range_data };

    fn value(&self, alloc: Global) -> Result<Value, AllocError> {
        json!(in alloc; {"count": self.count, "endOffset": self.end, "startOffset": self.start})
    }
}

impl Shown for FunctionReport {
    ghost shown = { report_data };

    fn value(&self, alloc: Global) -> Result<Value, AllocError> {
        let ranges = list_value(alloc, self.ranges.as_slice())?;
        let name = self.name.as_text();
        json!(in alloc; {"functionName": name, "isBlockCoverage": self.block, "ranges": ranges})
    }
}

fn list_value<T: Shown>(alloc: Global, items: &[T]) -> Result<Value, AllocError>
    ensures { IfOk result (λ value. view value ≡ array (array_of T.shown items.now)) }
{
    let mut values = Vec::new(alloc);
    for item in items {
        values.push(item.value(alloc)?)?;
    }
    Ok(Value::Array(values))
}

// The script at a place of the list.
fn entry_value(alloc: Global, place: usize, entry: &Entry) -> Result<Value, AllocError>
    ensures { IfOk result (λ value. view value ≡ entry_data place entry.now) }
{
    let functions = list_value(alloc, entry.functions.as_slice())?;
    let id = format!(in alloc; "{place}")?;
    let url = entry.url.as_text();
    json!(in alloc; {"functions": functions, "scriptId": id, "url": url})
}

/// The JSON list of a snapshot's scripts, each with its functions and their ranges, in their own order. Members stand
/// in byte order of their names, and `scriptId` is the place in the list, in decimal.

pub fn scripts_value(alloc: Global, snapshot: &Snapshot) -> Result<Value, AllocError>
    ensures { IfOk result (λ value. view value ≡ scripts_data snapshot.now) }
{
    let mut values = Vec::new(alloc);
    let scripts = snapshot.scripts();
    for (place, entry) in scripts.iter().enumerate() {
        values.push(entry_value(alloc, place, entry)?)?;
    }
    Ok(Value::Array(values))
}
