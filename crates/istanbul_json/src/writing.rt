//! The JSON of coverage files.
ghost use Rattle.std.specs.Prelude.{◌≡◌, ◌≤◌, ℕ, List, Ok, IfOk, OnOk, length, ⊤};
ghost use Rattle.std.specs.List.{AllByRecursion};
ghost use Rattle.serde_json.specs.Data.{Data, array, object, put};
ghost use Rattle.serde_json.specs.View.{view, members_view};
ghost use Rattle.cov_text.specs.Listing.{max_text};
ghost use Rattle.json_shapes.specs.Shapes.{array_of};
ghost use Rattle.istanbul_json.specs.Coverage.{coverage_reading};
ghost use Rattle.istanbul_json.specs.Gives.{ArePathsInOrder};
ghost use Rattle.istanbul_json.specs.Small as small;
ghost use Rattle.istanbul_json.specs.Value as written;

use crate::{Branch, FileCoverage, Function, Loc, Mark, Statement};
use serde_json::{Map, Value, json};
use std::alloc::{AllocError, Global};

/// The JSON value of a file, as Istanbul writes it: an object whose members stand in byte order of their names. An absent
/// line or column is null.
pub fn value_of(alloc: Global, file: &FileCoverage) -> Result<Value, AllocError>
    ensures { IfOk result (λ value. view value ≡ written.file_data file.now) }
{
    file.value(alloc)
}

/// The JSON text of files: the compact text of an object from path to file, with no final newline. Paths stand in byte
/// order, each once. `read_coverage` gives the files back where the text is within its size.
pub fn text_of(alloc: Global, files: &[FileCoverage]) -> Result<Vec<u8>, AllocError>
    requires { ArePathsInOrder files.now }
    ensures text { IfOk result (λ text. text.items ≡ written.files_text files.now) }
    ensures read_back { IfOk result (λ text. length text.items ≤ max_text
        → coverage_reading text.items ≡ Ok files.now) }
{
    let value = object_value(alloc, files)?;
    let text = value.to_vec(alloc)?;
    Ok(text)
}

/// What stands in a list.
trait Item {
    ghost shown: { Self → Data };

    ghost is_small: { Self → Type 0 };

    fn item_value(&self, alloc: Global) -> Result<Value, AllocError>
        ensures value { IfOk result (λ value. view value ≡ shown self.now) }
        ensures is_small { OnOk result (is_small self.now) };
}

/// What stands in an object under a key of its own. `Part` tells which of its values is meant.
trait Member<Part> {
    ghost key_of: { Self → List ℕ };

    ghost shown: { Self → Data };

    ghost is_small: { Self → Type 0 };

    fn name(&self) -> &str
        ensures { result.now ≡ key_of self.now };

    fn value(&self, alloc: Global) -> Result<Value, AllocError>
        ensures value { IfOk result (λ value. view value ≡ shown self.now) }
        ensures is_small { OnOk result (is_small self.now) };
}

/// What a statement, a function or a branch is, in its map.
struct Entry;

/// How often it ran.
struct Counts;

/// A file, by its path.
struct Whole;

fn list_value<T: Item>(alloc: Global, items: &[T]) -> Result<Value, AllocError>
    ensures value { IfOk result (λ value. view value ≡ array (array_of T.shown items.now)) }
    ensures is_small { OnOk result (AllByRecursion T.is_small items.now) }
{
    let mut values = Vec::new(alloc);
    for item in items {
        let value = item.item_value(alloc)?;
        values.push(value)?;
    }
    Ok(Value::Array(values))
}

fn object_value<Part, T: Member<Part>>(alloc: Global, items: &[T]) -> Result<Value, AllocError>
    ensures value { IfOk result (λ value. view value ≡ object (written.members_by T.key_of T.shown items.now)) }
    ensures is_small { OnOk result (AllByRecursion T.is_small items.now) }
{
    let mut members = Map::new(alloc);
    for item in items.iter().rev() {
        let value = item.value(alloc)?;
        insert(alloc, &mut members, item.name(), value)?;
    }
    Ok(Value::Object(members))
}

fn insert(
    alloc: Global,
    members: &mut Map<String, Value>,
    name: &str,
    value: Value,
) -> Result<(), AllocError>
    ensures { OnOk result (members_view members.new.entries ≡ put name.now (view value) (members_view members.old.entries)) }
{
    let name = String::from_str(alloc, name)?;
    members.insert(name, value)?;
    Ok(())
}

fn number_value(number: Option<u32>) -> Value
    ensures value { view result ≡ written.number_or_null number }
    ensures is_small { small.IsSmall number }
{
    match number {
        Some(number) => Value::from(number),
        None => Value::Null,
    }
}

fn mark_value(alloc: Global, mark: Mark) -> Result<Value, AllocError>
    ensures value { IfOk result (λ value. view value ≡ written.mark_data mark) }
    ensures is_small { OnOk result (small.IsSmallMark mark) }
{
    let column = number_value(mark.column);
    let line = number_value(mark.line);
    json!(in alloc; {"column": column, "line": line})
}

fn loc_value(alloc: Global, loc: Loc) -> Result<Value, AllocError>
    ensures value { IfOk result (λ value. view value ≡ written.loc_data loc) }
    ensures is_small { OnOk result (small.IsSmallLoc loc) }
{
    let end = mark_value(alloc, loc.end)?;
    let start = mark_value(alloc, loc.start)?;
    json!(in alloc; {"end": end, "start": start})
}

impl Item for Loc {
    ghost shown = { written.loc_data };

    ghost is_small = { small.IsSmallLoc };

    fn item_value(&self, alloc: Global) -> Result<Value, AllocError> {
        loc_value(alloc, *self)
    }
}

impl Item for u64 {
    ghost shown = { written.count_data };

    ghost is_small = { λ n. ⊤ };

    fn item_value(&self, alloc: Global) -> Result<Value, AllocError> {
        let _ = alloc;
        Ok(Value::from(*self))
    }
}

impl Member<Entry> for Statement {
    ghost key_of = { λ s. s.key };

    ghost shown = { λ s. written.loc_data s.loc };

    ghost is_small = { small.IsSmallStatement };

    fn name(&self) -> &str {
        self.key.as_text()
    }

    fn value(&self, alloc: Global) -> Result<Value, AllocError> {
        loc_value(alloc, self.loc)
    }
}

impl Member<Counts> for Statement {
    ghost key_of = { λ s. s.key };

    ghost shown = { λ s. written.count_data s.count };

    ghost is_small = { λ s. ⊤ };

    fn name(&self) -> &str {
        self.key.as_text()
    }

    fn value(&self, alloc: Global) -> Result<Value, AllocError> {
        self.count.item_value(alloc)
    }
}

impl Member<Entry> for Function {
    ghost key_of = { λ f. f.key };

    ghost shown = { written.function_data };

    ghost is_small = { small.IsSmallFunction };

    fn name(&self) -> &str {
        self.key.as_text()
    }

    fn value(&self, alloc: Global) -> Result<Value, AllocError> {
        let decl = loc_value(alloc, self.decl)?;
        let line = number_value(self.line);
        let loc = loc_value(alloc, self.loc)?;
        let name = self.name.as_text();
        json!(in alloc; {"decl": decl, "line": line, "loc": loc, "name": name})
    }
}

impl Member<Counts> for Function {
    ghost key_of = { λ f. f.key };

    ghost shown = { λ f. written.count_data f.count };

    ghost is_small = { λ f. ⊤ };

    fn name(&self) -> &str {
        self.key.as_text()
    }

    fn value(&self, alloc: Global) -> Result<Value, AllocError> {
        self.count.item_value(alloc)
    }
}

impl Member<Entry> for Branch {
    ghost key_of = { λ b. b.key };

    ghost shown = { written.branch_data };

    ghost is_small = { small.IsSmallBranch };

    fn name(&self) -> &str {
        self.key.as_text()
    }

    fn value(&self, alloc: Global) -> Result<Value, AllocError> {
        let line = number_value(self.line);
        let loc = loc_value(alloc, self.loc)?;
        let locations = list_value(alloc, self.locations.as_slice())?;
        let kind = self.kind.as_text();
        json!(in alloc; {"line": line, "loc": loc, "locations": locations, "type": kind})
    }
}

impl Member<Counts> for Branch {
    ghost key_of = { λ b. b.key };

    ghost shown = { λ b. array (array_of written.count_data b.counts) };

    ghost is_small = { λ b. ⊤ };

    fn name(&self) -> &str {
        self.key.as_text()
    }

    fn value(&self, alloc: Global) -> Result<Value, AllocError> {
        list_value(alloc, self.counts.as_slice())
    }
}

impl Member<Whole> for FileCoverage {
    ghost key_of = { λ f. f.path };

    ghost shown = { written.file_data };

    ghost is_small = { small.IsReadable };

    fn name(&self) -> &str {
        self.path()
    }

    #[tactic(auto, unfolding(crate::specs::Value::file_data))]
    fn value(&self, alloc: Global) -> Result<Value, AllocError> {
        let b = object_value::<Counts, Branch>(alloc, self.branches())?;
        let branch_map = object_value::<Entry, Branch>(alloc, self.branches())?;
        let f = object_value::<Counts, Function>(alloc, self.functions())?;
        let fn_map = object_value::<Entry, Function>(alloc, self.functions())?;
        let path = self.path();
        let s = object_value::<Counts, Statement>(alloc, self.statements())?;
        let statement_map = object_value::<Entry, Statement>(alloc, self.statements())?;
        json!(in alloc; {
            "b": b,
            "branchMap": branch_map,
            "f": f,
            "fnMap": fn_map,
            "path": path,
            "s": s,
            "statementMap": statement_map
        })
    }
}
