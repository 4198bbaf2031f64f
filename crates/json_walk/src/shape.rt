//! Values, lists and objects, whatever their items and members are read as.
ghost use Rattle.std.specs.Prelude.{◌≡◌, ◌<◌, ◌≤◌, length, IfSome, OnSome};
ghost use Rattle.serde_json.specs.Data.{Data, Items as DataItems, Members, no_members, array, object, put};
ghost use Rattle.json_walk.specs.Reads.{Begins, BeginsItems, BeginsMembers};
ghost use Rattle.json_shapes.specs.Shapes.{whole};
ghost use Rattle.json_walk.specs.Shape.{Is, AreGiven, GivesList};

use crate::leaf::read_whole;
use cov_text::Items;
use json::{Reader, Token};
use std::alloc::Global;

/// A way to read one value, as an item of a list or a whole text.
pub trait Listed {
    /// What the value is read as.
    type Of: Drop;

    /// What it says of the data that it was read of.
    ghost gives: { Self.Of → Data → Type 0 };

    /// The value that is next, nested no deeper than `depth`; `None` says nothing.
    fn read(alloc: Global, reader: &mut Reader<'_>, depth: usize) -> Option<Self::Of>
        ensures ok { IfSome result (λ x. (d : Data)
            × Begins depth reader.old d reader.new × gives x d) }
        ensures shorter { OnSome result (length reader.new < length reader.old) };
}

/// What is read of an object, a member at a time.
pub trait Membered: Sized + Drop {
    /// What was found says of the members that came so far.
    ghost holds: { Self → Members → Type 0 };

    /// What is found of no members.
    fn none() -> Self
        ensures { holds result no_members };

    /// Takes the value that is next as the member at a key, in the place of an earlier one; `None` says nothing.
    fn take(self, alloc: Global, key: &str, reader: &mut Reader<'_>, depth: usize) -> Option<Self>
        ensures ok { IfSome result (λ new. (d : Data) × Begins depth reader.old d reader.new
            × ((ms : Members) → holds self ms → holds new (put key.now d ms))) }
        ensures shorter { OnSome result (length reader.new < length reader.old) };
}

// The same items, with no room for more: most lists that are read have one item or two, where a list grows by four.
fn fitted<T: Drop>(items: Items<T>) -> Items<T>
    ensures { result ≡ items }
{
    let mut all = items.into_vec();
    all.shrink_to_fit();
    Items::from_vec(all)
}

// The items that are left of a list.
fn list_items<T: Listed>(
    alloc: Global,
    reader: &mut Reader<'_>,
    depth: usize,
) -> Option<Items<T::Of>>
    ensures ok { IfSome result (λ xs. (ds : DataItems)
        × BeginsItems depth reader.old ds reader.new × AreGiven T.gives xs ds) }
    ensures shorter { OnSome result (length reader.new ≤ length reader.old) }
{
    let mut found = Items::new(alloc);
    'items: while !reader.take_end_array() {
        let item = T::read(alloc, reader, depth)?;
        if found.push(item).is_err() {
            return None;
        }
    }
    Some(fitted(found))
}

/// The list that is next.
pub fn read_list<T: Listed>(
    alloc: Global,
    reader: &mut Reader<'_>,
    depth: usize,
) -> Option<Items<T::Of>>
    ensures ok { IfSome result (λ xs. (ds : DataItems)
        × Begins depth reader.old (array ds) reader.new × AreGiven T.gives xs ds) }
    ensures shorter { OnSome result (length reader.new < length reader.old) }
{
    let token = reader.next()?;
    let Token::BeginArray = token else {
        return None;
    };
    if depth == 0 {
        return None;
    }
    list_items::<T>(alloc, reader, depth - 1)
}

// The members that are left of an object.
fn object_members<T: Membered>(alloc: Global, reader: &mut Reader<'_>, depth: usize) -> Option<T>
    ensures ok { IfSome result (λ x. (ms : Members)
        × BeginsMembers depth reader.old ms reader.new × T.holds x ms) }
    ensures shorter { OnSome result (length reader.new ≤ length reader.old) }
{
    let mut found = T::none();
    'members: loop {
        match reader.next_key() {
            Ok(Some(key)) => found = found.take(alloc, key, reader, depth)?,
            Ok(None) => return Some(found),
            Err(_) => return None,
        }
    }
}

/// The object that is next.
pub fn read_object<T: Membered>(alloc: Global, reader: &mut Reader<'_>, depth: usize) -> Option<T>
    ensures ok { IfSome result (λ x. (ms : Members)
        × Begins depth reader.old (object ms) reader.new × T.holds x ms) }
    ensures shorter { OnSome result (length reader.new < length reader.old) }
{
    let token = reader.next()?;
    let Token::BeginObject = token else {
        return None;
    };
    if depth == 0 {
        return None;
    }
    object_members(alloc, reader, depth - 1)
}

impl Listed for u64 {
    type Of = u64;

    ghost gives = { Is whole };

    #[inline(always)]
    fn read(alloc: Global, reader: &mut Reader<'_>, depth: usize) -> Option<u64> {
        let _ = (alloc, depth);
        read_whole(reader)
    }
}

impl<T: Listed> Listed for Items<T> {
    type Of = Items<T::Of>;

    ghost gives = { GivesList T.gives };

    fn read(alloc: Global, reader: &mut Reader<'_>, depth: usize) -> Option<Items<T::Of>> {
        read_list::<T>(alloc, reader, depth)
    }
}
