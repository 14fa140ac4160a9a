//! What clients have, calls of clients on a heap, and turns of clients in an arena that they share.

mod carried;
mod desks;
mod heaps;
mod scripts;
mod turns;
