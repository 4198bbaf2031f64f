//! Elements in the order in which a text has them.
ghost use Rattle.std.specs.Prelude.{◌≡◌, ℕ, List, map, IfOk};
ghost use Rattle.std.specs.Ordering.{is_lt};
ghost use Rattle.serde_json.specs.Data.{Data};
ghost use Rattle.cov_text.specs.Listing.{text_cmp};
ghost use Rattle.istanbul_json.specs.Kept.{by_key};
ghost use Rattle.istanbul_json.specs.Value.{in_turn, members_by};

use std::alloc::{AllocError, Global};
use std::cmp::Ordering;

/// What has a key.
pub trait HasKey {
    ghost key_of: { Self → List ℕ };

    fn key(&self) -> &str
        ensures { result.now ≡ key_of self.now };
}

/// An element that is lent to the object in which it stands under its key.
#[derive(Clone, Copy)]
pub struct Keyed<'a, T> {
    pub item: &'a T,
}

/// The elements of a list by key, in byte order of their keys.
pub fn in_text_order<T: HasKey>(alloc: Global, items: &[T]) -> Result<Vec<Keyed<'_, T>>, AllocError>
    requires { by_key T.key_of items.now ≡ items.now }
    ensures { IfOk result (λ order. (shown : T → Data) → members_by T.key_of shown items.now
        ≡ in_turn T.key_of shown (map (λ k. k.item.now) order.items)) }
{
    let mut order = lent(alloc, items)?;
    order.sort_by(|a, b| text_order(a.item, b.item))?;
    Ok(order)
}

// The elements as they stand.
fn lent<T>(alloc: Global, items: &[T]) -> Result<Vec<Keyed<'_, T>>, AllocError>
    ensures { IfOk result (λ lent. map (λ k. k.item.now) lent.items ≡ items.now) }
{
    let mut lent = Vec::with_capacity(alloc, items.len())?;
    for item in items {
        lent.push(Keyed { item })?;
    }
    Ok(lent)
}

fn text_order<T: HasKey>(a: &T, b: &T) -> Ordering
    ensures { result ≡ text_cmp (T.key_of a.now) (T.key_of b.now) }
{
    a.key().cmp(b.key())
}
