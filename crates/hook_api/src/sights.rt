//! What a seat at a shared shelf knows. Of these types only `Began` has values when a program runs.
use std::collections::LinkedList;

/// How often a seat's asks were refused by each box, planned refusals aside.
pub struct Tally {
    pub refused: LinkedList<u64>,
}

/// The box that a seat has taken, and the box's own count of refusals as it was taken.
pub struct Taken {
    pub box_no: u64,
    pub own: u64,
}

/// A seat's view: the box that it has, if it has one, and the tallies of the clients that it stands for.
pub struct Sight {
    pub taken: Option<Taken>,
    pub tallies: LinkedList<Tally>,
}

/// What the table is told when it is made: the boxes' own counts of refusals, and how many clients there are.
#[derive(Drop)]
pub struct Began {
    pub own: [u64; 32],
    pub clients: u32,
}
