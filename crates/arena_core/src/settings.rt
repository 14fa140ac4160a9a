//! How an arena's decays go on, what can be set in it, and its counts as a reply.

ghost use Rattle.std.specs.Prelude.{◌≡◌, ℕ, ◌<◌, true, IfOk};
ghost use Rattle.space_model.specs.Pace.{after_advance};
ghost use Rattle.space_model.specs.Settings.{after_set, is_decay_time, made_live, setting_stands, with_setting};
ghost use Rattle.space_model.specs.Stepped.{if_live, stays};
ghost use Rattle.space_model.specs.Counts.{counts_of};
ghost use Rattle.space_model.specs.Sound.{Sound};
ghost use Rattle.arena_core.specs.Indexes.{Does, HasPlaces, space_of};
ghost use Rattle.arena_core.specs.Slabs.{IsBooked};

use crate::indexes::Indexes;
use crate::readers;
use space_model::{Boxed, Counts, Life, MAX_SERIES, Reply, Rest, Setting};
use std::alloc::AllocError as NoMemory;

/// Tells both decays what time it is, and how many pages are unused.
#[tactic(auto, using(crate::proofs::Totals::listed_pages, crate::proofs::Totals::listed_fit))]
pub fn advance(indexes: &mut Indexes, now: u64) -> Reply
    requires { Sound (space_of indexes.old) }
    ensures { Does indexes.old indexes.new indexes.old.regions.slabs (after_advance (space_of indexes.old) now) result }
{
    if !indexes.life.is_live() {
        return Reply::NoArena;
    }
    let dirty = indexes.extents.pages(Rest::Dirty);
    let muzzy = indexes.extents.pages(Rest::Muzzy);
    Reply::Limits {
        dirty: indexes.dirty.advance(now, dirty),
        muzzy: indexes.muzzy.advance(now, muzzy),
    }
}

/// An arena comes to be, with nothing in it.
fn make_live(indexes: &mut Indexes, box_no: u32, dirty_ms: i64, muzzy_ms: i64, now: u64)
    requires dirty { is_decay_time dirty_ms ≡ true }
    requires muzzy { is_decay_time muzzy_ms ≡ true }
    ensures after { space_of indexes.new ≡ made_live (space_of indexes.old) box_no dirty_ms muzzy_ms now }
    ensures slabs { indexes.new.regions.slabs ≡ indexes.old.regions.slabs }
    ensures places { (n : ℕ) → HasPlaces indexes.old n → HasPlaces indexes.new n }
{
    indexes.life = Life::Live;
    indexes.box_no = box_no;
    indexes.dirty.restart(dirty_ms, now);
    indexes.muzzy.restart(muzzy_ms, now);
    indexes.grow = 1;
    indexes.grow_limit = MAX_SERIES;
}

/// One setting of a live arena changes.
fn change(indexes: &mut Indexes, client: u32, setting: Setting)
    requires client { client < 32 }
    requires stands { setting_stands setting ≡ true }
    ensures after { space_of indexes.new ≡ with_setting (space_of indexes.old) client setting }
    ensures slabs { indexes.new.regions.slabs ≡ indexes.old.regions.slabs }
    ensures places { (n : ℕ) → HasPlaces indexes.old n → HasPlaces indexes.new n }
{
    match setting {
        Setting::DirtyMs { ms, now } => indexes.dirty.restart(ms, now),
        Setting::MuzzyMs { ms, now } => indexes.muzzy.restart(ms, now),
        Setting::HookBox(box_no) => indexes.box_no = box_no,
        Setting::Bind => indexes.bound.add(client),
        Setting::Unbind => indexes.bound.remove(client),
        Setting::GrowLimit { chunks } => indexes.grow_limit = chunks,
        Setting::Live { .. } => {}
    }
}

/// One setting changes; only an index that has no arena can get one.
pub fn set(indexes: &mut Indexes, client: u32, setting: Setting) -> Reply
    requires client { client < 32 }
    requires stands { setting_stands setting ≡ true }
    ensures { Does indexes.old indexes.new indexes.old.regions.slabs (after_set (space_of indexes.old) client setting) result }
{
    match (indexes.life, setting) {
        (
            Life::Absent,
            Setting::Live {
                box_no,
                dirty_ms,
                muzzy_ms,
                now,
            },
        ) => {
            make_live(indexes, box_no, dirty_ms, muzzy_ms, now);
            Reply::Noted
        }
        (_, Setting::Live { .. }) => Reply::Nothing,
        (Life::Live, _) => {
            change(indexes, client, setting);
            Reply::Noted
        }
        _ => Reply::NoArena,
    }
}

/// The counts, in a box.
fn boxed_counts(indexes: &Indexes) -> Result<Boxed<Counts>, NoMemory>
    requires sound { Sound (space_of indexes.now) }
    requires booked { IsBooked (space_of indexes.now) indexes.now.regions.slabs }
    ensures { IfOk result (λ boxed. boxed ≡ counts_of (space_of indexes.now)) }
{
    let counts = readers::counts(indexes);
    Boxed::new(indexes.alloc, counts)
}

/// The counts of a live arena, for which memory is taken.
pub fn counted(indexes: &Indexes) -> Result<Reply, NoMemory>
    requires sound { Sound (space_of indexes.now) }
    requires booked { IsBooked (space_of indexes.now) indexes.now.regions.slabs }
    ensures reply { IfOk result (λ told. told ≡ (if_live (space_of indexes.now) (stays (space_of indexes.now) (Reply.Counted (counts_of (space_of indexes.now))))).reply) }
    ensures same { (if_live (space_of indexes.now) (stays (space_of indexes.now) (Reply.Counted (counts_of (space_of indexes.now))))).after ≡ space_of indexes.now }
{
    if indexes.life.is_live() {
        Ok(Reply::Counted(boxed_counts(indexes)?))
    } else {
        Ok(Reply::NoArena)
    }
}
