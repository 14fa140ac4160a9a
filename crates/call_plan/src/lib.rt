//! Every call as one table: what it wants at each point, and where what it is fed leads.
//!
//! A call is plain data and does nothing by itself. It tells what it wants, one turn of an arena or one ask of a box of
//! hooks at a time, and is fed the reply or the answer. `specs/Table.antt` is the table; the code is that table, and the
//! run of a call is the fold of it over what the call is fed.
#![tactic(auto)]

mod asks;
mod batches;
mod begins;
mod calls;
mod clients;
mod desks;
mod gets;
mod laws;
mod needs;
mod points;
mod puts;
mod reallocs;
mod resizes;
mod settings;
mod soon;
mod turns;

pub use batches::Batch;
pub use calls::{Call, Stage};
pub use clients::{Desk, Swapped};
pub use laws::{
    answers_have_causes, asks_are_few, batches_end, batches_know, batches_rise, begins_know,
    frees_are_few, knowledge_is_own, mallocs_are_short, memaligns_are_aligned, moves_know,
    purges_are_few, refusals_stand, rooms_suffice, steps_keep, wants_stand,
};
pub use needs::{Answered, Given, Item, Need, Request, Turn};
pub use points::{AfterFlight, AskPoint, Change, NextStep, Resize, TurnPoint, Visit, Wish};
pub use soon::whole_fit;
