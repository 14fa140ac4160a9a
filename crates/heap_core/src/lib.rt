//! A heap: its arenas, each with its journal, of which none owns what another one does, and its clients with their calls.
#![tactic(auto)]

mod arenas;
mod carry;
mod heaps;
mod laws;
mod logs;
mod seats;
mod steps;

pub use arenas::{ARENAS, Arenas};
pub use heaps::{Did, Heap, Stepped};
pub use laws::{
    aims_sit, asks_lead_on, asks_sit, holders_publish, opening_sits, others_sit, others_stay,
    starts_sit, starves_sit, turns_lead_on, turns_sit,
};
