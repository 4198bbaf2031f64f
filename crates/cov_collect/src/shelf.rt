//! What lies under the lock of a batch.
ghost use Rattle.std.specs.Prelude.{◌≡◌, ◌∷◌, ◌++◌, ◌<◌, ◌^◌, [], ℕ, List, length, map, replicate};
ghost use Rattle.std.specs.Prelude.{Some, None, is_some, slice_get, slice_set, nat_eq, true, false};
ghost use Rattle.std.specs.Prelude.{IfOk, OnOk, OnErr, vec_items};
ghost use Rattle.cov_model.specs.declared.snapshot.Snapshot.{Snapshot};
ghost use Rattle.cov_model.specs.Outcome.{after, answer_to};
ghost use Rattle.cov_book.specs.Stands.{StandsFor};
ghost use Rattle.cov_collect.specs.Batches.{AllAnswered, IsBatch};
ghost use Rattle.cov_collect.specs.Shelves.{IsShelf, answer_at, given_of, readings_of};

use crate::{Batch, Naming};
use cov_book::{AddFault, Book, Steps};
use cov_model::{Answer, Items, Snapshot, TextFault};
use std::alloc::{AllocError, Global};
use std::marker::{Model, PhantomData};
use std::sync::ledger::Ledger;

/// The answers to the texts of a batch so far, the order in which they were given, and the book of the
/// base book's snapshots and those that were taken.
///
/// A place is the number of a text in the batch, from 0. The order has each answered place once, and
/// each answer is that of the rule over what was held when it was given.
#[derive(Drop)]
pub struct Shelf<'a, N: Naming> {
    base: &'a Book,
    texts: &'a [Vec<u8>],
    book: Book,
    answers: Vec<Option<Answer>>,
    order: Vec<u32>,
    of: PhantomData<N>,
}

impl<'a, N: Naming> Model for Shelf<'a, N> {
    ghost use Rattle.cov_collect.specs.Shelved.{Shelved};

    ghost Value = { Shelved };

    ghost use Rattle.cov_collect.specs.Shelves.{IsShelf};

    ghost view = { λ s. record { book = s.book; answers = s.answers.items; order = s.order.items } };

    ghost invariant = { λ s. IsShelf N.base N.texts
        (record { book = s.book; answers = s.answers.items; order = s.order.items }) };
}

impl<'a, N: Naming> Shelf<'a, N> {
    /// The shelf on which no text has an answer. An `AllocError` comes only for want of memory.
    pub fn new(
        alloc: Global,
        base: &'a Book,
        texts: &'a [Vec<u8>],
    ) -> Result<Shelf<'a, N>, AllocError>
        requires base { base.now ≡ N.base }
        requires texts { map vec_items texts.now ≡ N.texts }
        requires count { length texts.now < 2 ^ 32 }
        ensures book { IfOk result (λ shelf. shelf.book ≡ N.base) }
        ensures answers { IfOk result (λ shelf. shelf.answers ≡ replicate (length N.texts) None) }
        ensures order { IfOk result (λ shelf. shelf.order ≡ []) }
    {
        let book = base.copy(alloc)?;
        let answers = unanswered(alloc, texts.len())?;
        Ok(Shelf {
            base,
            texts,
            book,
            answers,
            order: Vec::new(alloc),
            of: PhantomData,
        })
    }

    /// Answers the text of a place by what it was read as: it is taken where every sum stays within 2^64-1.
    ///
    /// An `AllocError` comes only for want of memory. Then nothing has changed but the counter, which
    /// counts the runs that were looked at.
    pub fn take<L: Ledger>(
        &mut self,
        place: u32,
        read: Result<Snapshot, TextFault>,
        steps: &mut Steps<L>,
    ) -> Result<(), AllocError>
        requires open { answer_at self.old.answers place ≡ None }
        requires read { slice_get (readings_of N.texts) place ≡ Some read }
        ensures order { OnOk result (self.new.order ≡ self.old.order ++ place ∷ []) }
        ensures answers { OnOk result ((held : List Snapshot) → StandsFor self.old.book held
            → self.new.answers ≡ slice_set self.old.answers place (Some (answer_to held read))) }
        ensures book { OnOk result ((held : List Snapshot) → StandsFor self.old.book held
            → StandsFor self.new.book (after held read)) }
        ensures answered { OnOk result (is_some (answer_at self.new.answers place) ≡ true) }
        ensures others { OnOk result ((other : ℕ) → nat_eq place other ≡ false
            → slice_get self.new.answers other ≡ slice_get self.old.answers other) }
        ensures err { OnErr result (self.new ≡ self.old) }
    {
        self.order.reserve(1)?;
        let answer = answer_of(&mut self.book, read, steps)?;
        self.answers[place as usize] = Some(answer);
        self.order.push_reserved(place);
        Ok(())
    }

    /// Whether the text of a place has an answer. It takes no memory.
    pub fn answered(&self, place: u32) -> bool
        requires { place < length N.texts }
        ensures answered { result ≡ is_some (answer_at self.now.answers place) }
        ensures kept { IsShelf N.base N.texts self.now }
    {
        self.answers[place as usize].is_some()
    }

    // The batch, where each text has an answer.
    pub(crate) fn into_batch(self, alloc: Global) -> Result<Batch, AllocError>
        requires { AllAnswered self.answers (length N.texts) }
        ensures { IfOk result (λ batch. (held : List Snapshot) → StandsFor N.base held
            → IsBatch held N.texts batch) }
    {
        let Shelf {
            book,
            answers,
            order,
            ..
        } = self;
        let answers = given(alloc, answers)?;
        Ok(Batch {
            book,
            answers: Items::from_vec(answers),
            order: Items::from_vec(order),
        })
    }
}

// The answers that were given, in the order of their places.
fn given(alloc: Global, answers: Vec<Option<Answer>>) -> Result<Vec<Answer>, AllocError>
    ensures { IfOk result (λ given. given.items ≡ given_of answers.items) }
{
    let mut given = Vec::new(alloc);
    for answer in answers {
        match answer {
            Some(answer) => given.push(answer)?,
            None => {}
        }
    }
    Ok(given)
}

// As many places as there are texts, with no answer.
fn unanswered(alloc: Global, count: usize) -> Result<Vec<Option<Answer>>, AllocError>
    ensures { IfOk result (λ answers. answers.items ≡ replicate count None) }
{
    let mut answers = Vec::new(alloc);
    for _ in 0..count {
        answers.push(None)?;
    }
    Ok(answers)
}

// Adds what a text was read as to a book, and answers it. Without memory the book is as before.
fn answer_of<L: Ledger>(
    book: &mut Book,
    read: Result<Snapshot, TextFault>,
    steps: &mut Steps<L>,
) -> Result<Answer, AllocError>
    ensures answer { IfOk result (λ answer. (held : List Snapshot) → StandsFor book.old held
        → answer ≡ answer_to held read) }
    ensures book { OnOk result ((held : List Snapshot) → StandsFor book.old held
        → StandsFor book.new (after held read)) }
    ensures err { OnErr result (book.new ≡ book.old) }
{
    match read {
        Ok(snapshot) => match book.add(&snapshot, steps) {
            Ok(()) => Ok(Answer::Taken),
            Err(AddFault::Sum(fault)) => Ok(Answer::Past(fault)),
            Err(AddFault::NoMemory) => Err(AllocError),
        },
        Err(fault) => Ok(Answer::Bad(fault)),
    }
}
