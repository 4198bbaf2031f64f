//! What texts come to.
use cov_book::Book;
use cov_model::{Answer, Items};

/// The answer to each text by its place, the places in the order in which they were answered, and the
/// book of the base book's snapshots and those that were taken.
#[derive(Debug, Drop)]
pub struct Batch {
    pub book: Book,
    pub answers: Items<Answer>,
    pub order: Items<u32>,
}

/// The answer to each text by its place, and the book of those that were taken.
#[derive(Debug, Drop)]
pub struct Collected {
    pub book: Book,
    pub answers: Items<Answer>,
}
