//! What a seat at the words knows. No value of these types is made when a program runs.
use std::collections::LinkedList;

/// A claim that failed: the chunk, and the word that was read, which is the number of the arena that has it and one.
pub struct Taken {
    pub chunk: u64,
    pub owner: u64,
}

/// A look at a chunk: the chunk, and the word that was read, which is the number of the arena that has it and one, or 0.
pub struct Look {
    pub chunk: u64,
    pub word: u64,
}

/// What one arena of so many has: the chunks that it owns, in the order in which it claimed them, and its claims that failed and its
/// looks, each in theirs.
pub struct Share {
    pub number: u32,
    pub arenas: u32,
    pub owned: LinkedList<u64>,
    pub taken: LinkedList<Taken>,
    pub looks: LinkedList<Look>,
}

/// A seat's view: the shares of the arenas that it stands for.
pub struct View {
    pub shares: LinkedList<Share>,
}
