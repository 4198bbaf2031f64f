//! Objects with any keys.
ghost use Rattle.std.specs.Prelude.{◌≡◌, ◌<◌, ◌≤◌, ℕ, List, length, reverse, IfSome, OnSome};
ghost use Rattle.serde_json.specs.Data.{Data, Members};
ghost use Rattle.json_walk.specs.Reads.{Begins, BeginsMembers};
ghost use Rattle.json_walk.specs.Shape.{ArePutIn, GivesObject};

use crate::shape::Listed;
use cov_text::{Items, Text};
use json::{Reader, Token};
use std::alloc::Global;

/// A way to read one member of an object with any keys.
pub trait Keyed {
    /// What the member is read as.
    type Of: Drop;

    /// Its key.
    ghost key_of: { Self.Of → List ℕ };

    /// What it says of the data that it was read of.
    ghost says: { Self.Of → Data → Type 0 };

    /// The member of this key whose value is next, nested no deeper than `depth`; `None` says nothing.
    fn read_member(
        alloc: Global,
        key: &str,
        reader: &mut Reader<'_>,
        depth: usize,
    ) -> Option<Self::Of>
        ensures ok { IfSome result (λ x. (d : Data) × Begins depth reader.old d reader.new
            × says x d × (key_of x ≡ key.now)) }
        ensures shorter { OnSome result (length reader.new < length reader.old) };
}

/// A member and its key.
#[derive(Drop)]
pub struct Member<T> {
    pub key: Text,
    pub value: T,
}

impl<T: Listed> Keyed for Member<T> {
    type Of = Member<T::Of>;

    ghost key_of = { λ m. m.key };

    ghost says = { λ m d. T.gives m.value d };

    fn read_member(
        alloc: Global,
        key: &str,
        reader: &mut Reader<'_>,
        depth: usize,
    ) -> Option<Member<T::Of>> {
        let value = T::read(alloc, reader, depth)?;
        match Text::from_text(alloc, key) {
            Ok(key) => Some(Member { key, value }),
            Err(_) => None,
        }
    }
}

/// An object's members, as they stand in its text. Of members with one key all are here.
#[derive(Drop)]
pub struct Object<T> {
    pub members: Items<T>,
}

// The members that are left of an object.
fn keyed_members<T: Keyed>(
    alloc: Global,
    reader: &mut Reader<'_>,
    depth: usize,
) -> Option<Items<T::Of>>
    ensures ok { IfSome result (λ xs. (ms : Members) × BeginsMembers depth reader.old ms reader.new
        × ArePutIn T.key_of T.says (reverse xs) ms) }
    ensures shorter { OnSome result (length reader.new ≤ length reader.old) }
{
    let mut found = Items::new(alloc);
    'members: loop {
        match reader.next_key() {
            Ok(Some(key)) => {
                let member = T::read_member(alloc, key, reader, depth)?;
                if found.push(member).is_err() {
                    return None;
                }
            }
            Ok(None) => return Some(found),
            Err(_) => return None,
        }
    }
}

impl<T: Keyed> Listed for Object<T> {
    type Of = Object<T::Of>;

    ghost gives = { λ x d. GivesObject T.key_of T.says x.members d };

    fn read(alloc: Global, reader: &mut Reader<'_>, depth: usize) -> Option<Object<T::Of>> {
        let token = reader.next()?;
        let Token::BeginObject = token else {
            return None;
        };
        if depth == 0 {
            return None;
        }
        let members = keyed_members::<T>(alloc, reader, depth - 1)?;
        Some(Object { members })
    }
}
