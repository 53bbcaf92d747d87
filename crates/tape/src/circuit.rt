use crate::book::Book;

/// What a run changes: a system, and the book of answers.
#[derive(Drop)]
pub struct Circuit<'a, S> {
    pub system: S,
    pub book: Book<'a>,
}
