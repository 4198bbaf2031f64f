//! Statements, functions and branches, each in an object with its count and in one with what it is.
ghost use Rattle.std.specs.Prelude.{◌≡◌, ◌++◌, ℕ, List, false};
ghost use Rattle.serde_json.specs.Data.{Data, array};
ghost use Rattle.serde_json.specs.Written.{compact_text, members_text};
ghost use Rattle.json_shapes.specs.Shapes.{array_of};
ghost use Rattle.istanbul_json.specs.Kept.{by_key};
ghost use Rattle.istanbul_json.specs.Value as value;
ghost use Rattle.istanbul_json.specs.Value.{members_by};
ghost use Rattle.json_pieces.specs.Pieces.{Hands, out_at};
ghost use Rattle.coverage_text.specs.Parts.{member_text};

use crate::order::{HasKey, Keyed, in_text_order};
use crate::parts::{put_before_locations, put_behind_locations, put_function, put_key, put_loc};
use cov_io::{Sink, SinkFault};
use istanbul_json::{Branch, Function, Loc, Statement};
use json_pieces::{Part, put_number, write_list};
use std::alloc::Global;

/// What a statement, a function or a branch is, in its map.
struct Entry;

/// How often it ran.
struct Counts;

/// An element of an array.
struct Element;

/// What a file lists by key.
pub trait Listed: HasKey {
    ghost entry: { Self → Data };

    ghost counts: { Self → Data };

    fn write_entry<O: Sink>(
        &self,
        alloc: Global,
        text: &mut Vec<u8>,
        out: &mut O,
    ) -> Result<(), SinkFault>
        ensures { Hands (compact_text (entry self.now))
            (out_at (O.held out.old) (O.longest out.old) (O.faults out.old))
            (out_at (O.held out.new) (O.longest out.new) (O.faults out.new))
            text.old.items text.new.items result };

    fn write_counts<O: Sink>(
        &self,
        alloc: Global,
        text: &mut Vec<u8>,
        out: &mut O,
    ) -> Result<(), SinkFault>
        ensures { Hands (compact_text (counts self.now))
            (out_at (O.held out.old) (O.longest out.old) (O.faults out.old))
            (out_at (O.held out.new) (O.longest out.new) (O.faults out.new))
            text.old.items text.new.items result };
}

/// Puts the object of the counts and then that of the entries, each behind the text that stands before its members.
pub fn write_both<T: Listed, O: Sink>(
    alloc: Global,
    items: &[T],
    before_counts: &[u8],
    before_entries: &[u8],
    text: &mut Vec<u8>,
    out: &mut O,
) -> Result<(), SinkFault>
    requires { by_key T.key_of items.now ≡ items.now }
    ensures { Hands ((before_counts.now ++ members_text false (members_by T.key_of T.counts items.now))
        ++ (before_entries.now ++ members_text false (members_by T.key_of T.entry items.now)))
        (out_at (O.held out.old) (O.longest out.old) (O.faults out.old))
        (out_at (O.held out.new) (O.longest out.new) (O.faults out.new))
        text.old.items text.new.items result }
{
    let order = in_text_order(alloc, items)?;
    write_list::<Counts, Keyed<'_, T>, O>(alloc, before_counts, &order, b"}", text, out)?;
    write_list::<Entry, Keyed<'_, T>, O>(alloc, before_entries, &order, b"}", text, out)
}

impl<T: Listed> Part<Entry> for Keyed<'_, T> {
    ghost text_at = { λ _ k. member_text (T.key_of k.item.now) (T.entry k.item.now) };

    fn write<O: Sink>(
        &self,
        alloc: Global,
        _: usize,
        text: &mut Vec<u8>,
        out: &mut O,
    ) -> Result<(), SinkFault> {
        put_key(alloc, text, self.item.key())?;
        self.item.write_entry(alloc, text, out)
    }
}

impl<T: Listed> Part<Counts> for Keyed<'_, T> {
    ghost text_at = { λ _ k. member_text (T.key_of k.item.now) (T.counts k.item.now) };

    fn write<O: Sink>(
        &self,
        alloc: Global,
        _: usize,
        text: &mut Vec<u8>,
        out: &mut O,
    ) -> Result<(), SinkFault> {
        put_key(alloc, text, self.item.key())?;
        self.item.write_counts(alloc, text, out)
    }
}

impl Part<Element> for u64 {
    ghost text_at = { λ _ n. compact_text (value.count_data n) };

    fn write<O: Sink>(
        &self,
        _: Global,
        _: usize,
        text: &mut Vec<u8>,
        _: &mut O,
    ) -> Result<(), SinkFault> {
        Ok(put_number(text, *self)?)
    }
}

impl Part<Element> for Loc {
    ghost text_at = { λ _ l. compact_text (value.loc_data l) };

    fn write<O: Sink>(
        &self,
        _: Global,
        _: usize,
        text: &mut Vec<u8>,
        _: &mut O,
    ) -> Result<(), SinkFault> {
        Ok(put_loc(text, *self)?)
    }
}

impl HasKey for Statement {
    ghost key_of = { λ s. s.key };

    fn key(&self) -> &str {
        self.key.as_text()
    }
}

impl Listed for Statement {
    ghost entry = { λ s. value.loc_data s.loc };

    ghost counts = { λ s. value.count_data s.count };

    fn write_entry<O: Sink>(
        &self,
        _: Global,
        text: &mut Vec<u8>,
        _: &mut O,
    ) -> Result<(), SinkFault> {
        Ok(put_loc(text, self.loc)?)
    }

    fn write_counts<O: Sink>(
        &self,
        _: Global,
        text: &mut Vec<u8>,
        _: &mut O,
    ) -> Result<(), SinkFault> {
        Ok(put_number(text, self.count)?)
    }
}

impl HasKey for Function {
    ghost key_of = { λ f. f.key };

    fn key(&self) -> &str {
        self.key.as_text()
    }
}

impl Listed for Function {
    ghost entry = { value.function_data };

    ghost counts = { λ f. value.count_data f.count };

    fn write_entry<O: Sink>(
        &self,
        alloc: Global,
        text: &mut Vec<u8>,
        _: &mut O,
    ) -> Result<(), SinkFault> {
        Ok(put_function(alloc, text, self)?)
    }

    fn write_counts<O: Sink>(
        &self,
        _: Global,
        text: &mut Vec<u8>,
        _: &mut O,
    ) -> Result<(), SinkFault> {
        Ok(put_number(text, self.count)?)
    }
}

impl HasKey for Branch {
    ghost key_of = { λ b. b.key };

    fn key(&self) -> &str {
        self.key.as_text()
    }
}

impl Listed for Branch {
    ghost entry = { value.branch_data };

    ghost counts = { λ b. array (array_of value.count_data b.counts) };

    fn write_entry<O: Sink>(
        &self,
        alloc: Global,
        text: &mut Vec<u8>,
        out: &mut O,
    ) -> Result<(), SinkFault> {
        put_before_locations(text, self)?;
        write_list::<Element, Loc, O>(alloc, b"", self.locations.as_slice(), b"]", text, out)?;
        Ok(put_behind_locations(alloc, text, self)?)
    }

    fn write_counts<O: Sink>(
        &self,
        alloc: Global,
        text: &mut Vec<u8>,
        out: &mut O,
    ) -> Result<(), SinkFault> {
        write_list::<Element, u64, O>(alloc, b"[", self.counts.as_slice(), b"]", text, out)
    }
}
