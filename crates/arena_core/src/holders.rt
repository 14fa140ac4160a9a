//! How a region goes from one client to another.

ghost use Rattle.std.specs.Prelude.{◌≡◌, ◌<◌, ℕ, true};
ghost use Rattle.space_model.specs.Holding.{after_publish, after_take_over};
ghost use Rattle.space_model.specs.Step.{holds_at};
ghost use Rattle.space_model.specs.Sound.{Sound};
ghost use Rattle.arena_core.specs.Indexes.{Does, space_of};

use crate::indexes::Indexes;
use space_model::Reply;

/// Nobody holds the client's region at the address any more.
pub fn publish(indexes: &mut Indexes, client: u32, addr: u64) -> Reply
    requires held { holds_at client (space_of indexes.old).regions addr ≡ true }
    requires sound { Sound (space_of indexes.old) }
    ensures { Does indexes.old indexes.new indexes.old.regions.slabs
        (after_publish (space_of indexes.old) client addr) result }
{
    indexes.regions.hand_over(addr, None);
    Reply::Noted
}

/// The client holds the published region at the address from now on, if there is one.
pub fn take_over(indexes: &mut Indexes, client: u32, addr: u64) -> Reply
    requires client { client < 32 }
    requires sound { Sound (space_of indexes.old) }
    ensures { Does indexes.old indexes.new indexes.old.regions.slabs
        (after_take_over (space_of indexes.old) client addr) result }
{
    if !indexes.life.is_live() {
        return Reply::NoArena;
    }
    let Some(class) = indexes.regions.published_at(addr) else {
        return Reply::Nothing;
    };
    indexes.regions.hand_over(addr, Some(client));
    Reply::Owned { class }
}
