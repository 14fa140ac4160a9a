//! What is true of a book of slabs beside a space.

ghost use Rattle.arena_core.specs.Booked.{BooksStayWhereHoldersChange, BooksStayWhileExtentsDo, FillsTakeTheLowest, LandsTakeTheFirst, OrderGrows, OrderStays, ReturnsAreFree};
ghost use Rattle.arena_core.specs.Slabs.{NothingIsBooked};

/// What a book gives for a class is what a fill takes, and both stay together.
pub fn fills_take_the_lowest()
    ensures { FillsTakeTheLowest }
{}

/// A book stays with its space while the regions and the extents that serve them stay, whoever holds them.
#[tactic(auto, using(crate::proofs::Booked::stay_still, crate::proofs::Booked::stay_handed))]
pub fn books_stay()
    ensures extents { BooksStayWhileExtentsDo }
    ensures holders { BooksStayWhereHoldersChange }
{}

/// A space without regions is kept by the book without slabs.
pub fn nothing_is_booked()
    ensures { NothingIsBooked }
{}

/// Where the regions at an address go, each slab has its place there free.
pub fn returns_are_free()
    ensures { ReturnsAreFree }
{}

/// Extents that stay keep their order by address, and a new one stands between those below it and those above it.
#[tactic(auto, using(crate::proofs::InOrder::order_stays, crate::proofs::InOrder::order_grows))]
pub fn order_stays()
    ensures stays { OrderStays }
    ensures grows { OrderGrows }
{}

/// Where regions land in an extent without any, its lowest places are out, and the others free.
pub fn lands_take_the_first()
    ensures { LandsTakeTheFirst }
{}
