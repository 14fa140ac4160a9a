//! The shelf of boxes.

ghost use Rattle.std.specs.Prelude.{◌≡◌, ◌<◌, length, map, vec_len};
ghost use Rattle.hook_api.specs.Hooks.{HookCall};
ghost use Rattle.hook_api.specs.Shelf.{count_of, BoxStep};

use crate::asked::Asked;
use crate::books::Book;
use crate::hooks::{ExtentHooks, heard_placed, heard_said};
use crate::plans::Kind;
use space_model::{Answer, Ask};
use std::marker::Model;

/// How many boxes a shelf has.
pub(crate) const BOXES: usize = 32;

/// 32 boxes of hooks by number, and the plans that refuse asks before a box hears of them. Contracts see the accounts
/// of the boxes and the books that the shelf keeps.
///
/// Where the boxes are of several kinds, `H` is an enum of these.
#[derive(Drop)]
pub struct HookShelf<H: ExtentHooks> {
    pub(crate) boxes: Vec<H>,
    pub(crate) books: [Book; BOXES],
}

impl<H: ExtentHooks> Model for HookShelf<H> {
    ghost use Rattle.std.specs.Prelude.{◌≡◌, length, map};
    ghost use Rattle.hook_api.specs.Shelf.{Shelf};

    ghost Value = { Shelf };

    ghost view = { λ s. record { accounts = map H.account s.boxes.items; books = s.books } };

    ghost invariant = { λ s. length s.boxes.items ≡ 32 };
}

/// Calls the hook of an ask.
fn call<H: ExtentHooks>(hooks: &mut H, ask: Ask) -> Answer
    ensures { HookCall (H.account hooks.old) ask result (H.account hooks.new) }
{
    match ask {
        Ask::Alloc {
            at,
            pages,
            align,
            commit,
        } => heard_placed(hooks.alloc(at, pages, align, commit)),
        Ask::Dalloc { span, committed } => heard_said(hooks.dalloc(span, committed)),
        Ask::Destroy { span, committed } => {
            hooks.destroy(span, committed);
            Answer::Done
        }
        Ask::Commit(span) => heard_said(hooks.commit(span)),
        Ask::Decommit(span) => heard_said(hooks.decommit(span)),
        Ask::PurgeLazy(span) => heard_said(hooks.purge_lazy(span)),
        Ask::PurgeForced(span) => heard_said(hooks.purge_forced(span)),
        Ask::Split { span, left } => heard_said(hooks.split(span, left)),
        Ask::Merge { low, high } => heard_said(hooks.merge(low, high)),
    }
}

/// The count of refusals of a box number: the box's own and the planned ones.
fn count<H: ExtentHooks>(hooks: &H, book: &Book) -> u64
    ensures { result ≡ count_of (record { account = H.account hooks.now; book = book.now }) }
{
    hooks.refusals().saturating_add(book.planned)
}

/// Asks one box, except where a plan refuses the ask.
pub(crate) fn ask_box<H: ExtentHooks>(
    hooks: &mut H,
    book: &mut Book,
    box_no: u32,
    ask: Ask,
) -> Asked
    ensures step { BoxStep (record { account = H.account hooks.old; book = book.old }) result (record { account = H.account hooks.new; book = book.new }) }
    ensures of_box { result.box_no ≡ box_no }
    ensures of_ask { result.ask ≡ ask }
{
    let place = book.take_place();
    let before = count(hooks, book);
    let planned = book.take_plan(ask);
    let answer = if planned {
        book.planned = book.planned.saturating_add(1);
        Answer::Refused
    } else {
        call(hooks, ask)
    };
    let after = count(hooks, book);
    Asked::new((box_no, place), ask, answer, (before, after), planned)
}

impl<H: ExtentHooks> HookShelf<H> {
    ghost use Rattle.hook_api.specs.Shelf.{box_at, new_shelf, AskStep, PlanStep};

    /// A shelf of these 32 boxes, with no ask so far and no plan.
    pub fn new(boxes: Vec<H>) -> HookShelf<H>
        requires { vec_len boxes ≡ 32 }
        ensures { result ≡ new_shelf (map H.account boxes.items) }
    {
        HookShelf {
            boxes,
            books: [Book::new(); BOXES],
        }
    }

    /// Passes the ask to the box and gives its answer, except where a plan refuses it. Takes no memory.
    pub fn ask(&mut self, box_no: u32, ask: Ask) -> Asked
        requires { box_no < 32 }
        ensures step { AskStep self.old result self.new }
        ensures of_box { result.box_no ≡ box_no }
        ensures of_ask { result.ask ≡ ask }
    {
        let i = box_no as usize;
        ask_box(&mut self.boxes[i], &mut self.books[i], box_no, ask)
    }

    /// Replaces the plan of that box number and kind: the `nth` ask of the kind from now on is refused, or every ask
    /// where `nth` is 0. A refused `nth` ends its plan. Takes no memory.
    pub fn plan(&mut self, box_no: u32, kind: Kind, nth: u64)
        requires { box_no < 32 }
        ensures { PlanStep self.old box_no kind nth self.new }
    {
        self.books[box_no as usize].set_plan(kind, nth);
    }

    /// The count of refusals of a box number: the box's own and the planned ones, at most the greatest `u64`.
    #[tactic(auto, using(crate::proofs::Boxes::box_at_mapped))]
    pub fn refusals(&self, box_no: u32) -> u64
        requires { box_no < 32 }
        ensures { result ≡ count_of (box_at self.now box_no) }
    {
        let i = box_no as usize;
        count(&self.boxes[i], &self.books[i])
    }
}
