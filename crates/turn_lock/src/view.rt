//! What a seat at the table of a lock knows. Of these types only the key has values when a program runs.
use std::collections::LinkedList;
use std::snapshot::Snapshot;

/// A turn that replied: its number, and the entry that its step left.
pub struct Turn<E> {
    pub number: u32,
    pub entry: E,
}

/// Numbers, and a history that has all their turns.
pub struct Claim<E> {
    pub numbers: LinkedList<u32>,
    pub seen: LinkedList<Turn<E>>,
}

/// Whether a seat has a ticket, and whether it is served. Then it knows the whole history.
pub enum Stage<E> {
    Idle,
    Waiting(u64),
    Serving(u64, LinkedList<Turn<E>>),
}

/// A seat's view: the state that the lock was made with, and its claims, of which each pass has one.
pub struct View<S, E> {
    pub first: Option<S>,
    pub stage: Stage<E>,
    pub claims: LinkedList<Claim<E>>,
}

/// What the table is told when it is made: the state at the start, and how many numbers the passes share.
#[derive(Drop)]
pub struct Key<S> {
    pub first: Snapshot<S>,
    pub seats: u32,
}
