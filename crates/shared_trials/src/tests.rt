//! Calls of clients on a heap that they share, one behind the other and in threads of their own.

mod boxes;
mod cached;
mod calls;
mod counted;
mod crowds;
mod draws;
mod flags;
mod gates;
mod handing;
mod heaps;
mod phases;
mod replays;
mod workers;
