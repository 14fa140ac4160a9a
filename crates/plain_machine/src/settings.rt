//! What can be set in an arena.

ghost use Rattle.std.specs.Prelude.{◌≡◌, ◌<◌, IsTrue};
ghost use Rattle.space_model.specs.Settings.{is_absent, is_decay_time, setting_stands, made_live, with_setting, after_set};

use space_model::{CLIENTS, Life, MAX_SERIES, Pace, Reply, Setting, Space};

/// The longest decay time, in milliseconds.
const MAX_DECAY_MS: i64 = 1_000_000_000;

/// How many boxes of hooks there are.
const BOXES: u32 = 32;

/// Whether it is a decay time.
fn is_decay_time(ms: i64) -> bool
    ensures { result ≡ is_decay_time ms }
{
    -1 <= ms && ms <= MAX_DECAY_MS
}

/// Whether the setting is in range.
pub fn setting_stands(setting: Setting) -> bool
    ensures { result ≡ setting_stands setting }
{
    match setting {
        Setting::DirtyMs { ms, .. } => is_decay_time(ms),
        Setting::MuzzyMs { ms, .. } => is_decay_time(ms),
        Setting::HookBox(box_no) => box_no < BOXES,
        Setting::Bind | Setting::Unbind => true,
        Setting::GrowLimit { chunks } => 1 <= chunks && chunks <= MAX_SERIES,
        Setting::Live {
            box_no,
            dirty_ms,
            muzzy_ms,
            ..
        } => box_no < BOXES && is_decay_time(dirty_ms) && is_decay_time(muzzy_ms),
    }
}

/// An arena comes to be, with nothing in it.
fn make_live(space: &mut Space, box_no: u32, dirty_ms: i64, muzzy_ms: i64, now: u64)
    ensures { space.new ≡ made_live space.old box_no dirty_ms muzzy_ms now }
{
    let alloc = space.parts.alloc();
    space.life = Life::Live;
    space.box_no = box_no;
    space.dirty = Pace::new(alloc, dirty_ms, now);
    space.muzzy = Pace::new(alloc, muzzy_ms, now);
    space.grow = 1;
    space.grow_limit = MAX_SERIES;
}

/// One setting of a live arena changes.
fn change(space: &mut Space, client: u32, setting: Setting)
    requires { client < 32 }
    ensures { space.new ≡ with_setting space.old client setting }
{
    let alloc = space.parts.alloc();
    match setting {
        Setting::DirtyMs { ms, now } => space.dirty = Pace::new(alloc, ms, now),
        Setting::MuzzyMs { ms, now } => space.muzzy = Pace::new(alloc, ms, now),
        Setting::HookBox(box_no) => space.box_no = box_no,
        Setting::Bind => space.bound.add(client),
        Setting::Unbind => space.bound.remove(client),
        Setting::GrowLimit { chunks } => space.grow_limit = chunks,
        Setting::Live { .. } => {}
    }
}

/// One setting changes; only an index that has no arena can get one.
pub fn set(space: &mut Space, client: u32, setting: Setting) -> Reply
    requires { client < 32 }
    ensures after { space.new ≡ (after_set space.old client setting).after }
    ensures reply { result ≡ (after_set space.old client setting).reply }
{
    match (space.life, setting) {
        (
            Life::Absent,
            Setting::Live {
                box_no,
                dirty_ms,
                muzzy_ms,
                now,
            },
        ) => {
            make_live(space, box_no, dirty_ms, muzzy_ms, now);
            Reply::Noted
        }
        (_, Setting::Live { .. }) => Reply::Nothing,
        (Life::Live, _) => {
            change(space, client, setting);
            Reply::Noted
        }
        _ => Reply::NoArena,
    }
}
