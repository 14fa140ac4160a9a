//! What the operations of a purge do to the indexes.

ghost use Rattle.std.specs.Prelude.{◌≡◌, ℕ};
ghost use Rattle.space_model.specs.Purging.{after_decommit, after_lazy, after_purge_take};
ghost use Rattle.space_model.specs.Stepped.{is_lazy};
ghost use Rattle.arena_core.specs.Indexes.{Does, space_of};

use crate::indexes::Indexes;
use space_model::{Answer, Ask, Heard, Reply, Rest, State};

/// Whether muzzy extents may stay, so that a dirty one is purged lazily first.
pub fn is_lazy(indexes: &Indexes) -> bool
    ensures { result ≡ is_lazy (space_of indexes.now) }
{
    indexes.muzzy.ms() != 0
}

/// Takes the oldest extent of a rest out of its list, where more pages are listed than may stay.
#[tactic(auto, using(crate::proofs::Totals::listed_pages))]
pub fn purge_take(indexes: &mut Indexes, client: u32, rest: Rest, keep: u64) -> Reply
    ensures { Does indexes.old indexes.new indexes.old.regions.slabs (after_purge_take (space_of indexes.old) client rest keep) result }
{
    if !indexes.life.is_live() {
        return Reply::NoArena;
    }
    if indexes.extents.pages(rest) <= keep {
        return Reply::Nothing;
    }
    let Some(part) = indexes.extents.oldest(rest) else {
        return Reply::Nothing;
    };
    let lazy = State::Dirty.is_listed(rest) && is_lazy(indexes);
    let listed = indexes.extents.count(rest);
    let state = State::Flight(client, part.state.rest());
    indexes.extents.change(&part, state, part.committed);
    Reply::Taken {
        span: part.span,
        lazy,
        listed,
    }
}

/// Takes in the answer to a lazy purge.
pub fn lazy_done(indexes: &mut Indexes, client: u32, heard: Heard) -> Reply
    ensures { Does indexes.old indexes.new indexes.old.regions.slabs (after_lazy (space_of indexes.old) client heard.ask heard.answer) result }
{
    let Ask::PurgeLazy(span) = heard.ask else {
        return Reply::Noted;
    };
    match (heard.answer, indexes.extents.flight(client, span)) {
        (Answer::Done, Some(part)) => {
            let state = State::Flight(client, Rest::Muzzy);
            indexes.extents.change(&part, state, part.committed);
            Reply::Lazy(true)
        }
        (Answer::Refused, _) => Reply::Lazy(false),
        _ => Reply::Noted,
    }
}

/// Takes in the answer to a decommit.
pub fn decommit_done(indexes: &mut Indexes, client: u32, heard: Heard) -> Reply
    ensures { Does indexes.old indexes.new indexes.old.regions.slabs (after_decommit (space_of indexes.old) client heard.ask heard.answer) result }
{
    let Ask::Decommit(span) = heard.ask else {
        return Reply::Noted;
    };
    match (heard.answer, indexes.extents.flight(client, span)) {
        (Answer::Done, Some(part)) => {
            indexes.extents.change(&part, part.state, false);
            Reply::Decommitted(true)
        }
        (Answer::Refused, _) => Reply::Decommitted(false),
        _ => Reply::Noted,
    }
}
