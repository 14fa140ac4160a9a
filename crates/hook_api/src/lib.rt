//! Boxes of extent hooks, and the shelf that asks them.
//!
//! A box is whatever stands behind the hooks of an arena, and nothing is assumed of the ranges that it answers. The
//! shelf has 32 boxes by number, refuses the asks that a plan names, and passes every other ask on. What it gives back,
//! an [`Asked`], nobody else can make: a journal that keeps one beside an entry keeps an ask that was really made.
//! A [`SharedShelf`] has each box under a lock of its own, and a seat for each client that asks.
#![tactic(auto)]

mod ask_list;
mod asked;
mod books;
mod boxed;
mod briefs;
mod deeds;
mod desk;
mod hooks;
mod kept;
mod kepts;
mod laws;
mod locks;
mod narrow_asks;
mod narrow_deeds;
mod orders;
mod plans;
mod rising;
mod seat;
mod share;
mod share_rule;
mod shared;
mod shelf;
mod sights;
mod slots;
mod unshare;

pub use ask_list::{AskList, Askeds};
pub use asked::Asked;
pub use hooks::{ExtentHooks, Placed, Said, heard_placed, heard_said};
pub use kept::{Journal, Journals, Kept};
pub use kepts::{Kepts, Writing};
pub use laws::{
    ask_chain_at_each_box, ask_chain_extends, chain_at_each_box, chain_extends, plan_refuses_nth,
};
pub use plans::Kind;
pub use rising::RisingHooks;
pub use seat::{AskSeat, AskSeats};
pub use shared::SharedShelf;
pub use shelf::HookShelf;
