//! The words of entries that aren't numbers.

ghost use Rattle.std.specs.Prelude.{◌≡◌, ◌<◌, ◌≤◌, length};
ghost use Rattle.journal.specs.Labels.{label_of, label_word, place_of};

/// A word that isn't a number, by what it says.
#[derive(Clone, Copy)]
pub enum Label {
    Look,
    CutDone,
    GrowDone,
    CommitDone,
    Land,
    Back,
    PutLook,
    MergeDone,
    Fill,
    Advance,
    PurgeTake,
    LazyDone,
    Offer,
    OfferDone,
    DecommitDone,
    ForcedDone,
    Publish,
    TakeOver,
    Reset,
    Destroy,
    DestroyTake,
    Counts,
    Set,
    Widen,
    JoinDone,
    Trim,
    TrimDone,
    DirtyMs,
    MuzzyMs,
    HookBox,
    Bind,
    Unbind,
    GrowLimit,
    Live,
    Alloc,
    Dalloc,
    Commit,
    Decommit,
    PurgeLazy,
    PurgeForced,
    Split,
    Merge,
    Refused,
    Done,
    Placed,
    Dirty,
    Muzzy,
    Retained,
}

/// How many places the table of the words has.
const PLACES: usize = 128;

/// The longest word.
const LONGEST: usize = 12;

/// At the place that a word's bytes give, the only label that the word can have.
static TABLE: [Label; PLACES] = [
    Label::Look,
    Label::Look,
    Label::Look,
    Label::Look,
    Label::Look,
    Label::TrimDone,
    Label::PurgeForced,
    Label::Look,
    Label::Merge,
    Label::Advance,
    Label::Look,
    Label::Destroy,
    Label::Commit,
    Label::Look,
    Label::Look,
    Label::Look,
    Label::Look,
    Label::Look,
    Label::Look,
    Label::Look,
    Label::Look,
    Label::Look,
    Label::Unbind,
    Label::Look,
    Label::Look,
    Label::Look,
    Label::Counts,
    Label::Look,
    Label::Look,
    Label::Placed,
    Label::GrowDone,
    Label::Offer,
    Label::Look,
    Label::Dirty,
    Label::Look,
    Label::Look,
    Label::Bind,
    Label::MergeDone,
    Label::Back,
    Label::Look,
    Label::Look,
    Label::Retained,
    Label::Look,
    Label::Decommit,
    Label::Look,
    Label::Look,
    Label::Publish,
    Label::Look,
    Label::Look,
    Label::Look,
    Label::Look,
    Label::Live,
    Label::Muzzy,
    Label::DirtyMs,
    Label::Look,
    Label::ForcedDone,
    Label::Look,
    Label::Look,
    Label::MuzzyMs,
    Label::Look,
    Label::Look,
    Label::Look,
    Label::Look,
    Label::Dalloc,
    Label::Look,
    Label::Look,
    Label::Land,
    Label::Look,
    Label::Look,
    Label::Widen,
    Label::OfferDone,
    Label::Split,
    Label::Alloc,
    Label::Look,
    Label::Look,
    Label::Look,
    Label::Look,
    Label::Look,
    Label::Look,
    Label::Refused,
    Label::Look,
    Label::Look,
    Label::Look,
    Label::Look,
    Label::Look,
    Label::Look,
    Label::Look,
    Label::Look,
    Label::Look,
    Label::PutLook,
    Label::Look,
    Label::GrowLimit,
    Label::Look,
    Label::Look,
    Label::CommitDone,
    Label::HookBox,
    Label::Look,
    Label::Look,
    Label::Look,
    Label::Done,
    Label::CutDone,
    Label::Look,
    Label::PurgeLazy,
    Label::JoinDone,
    Label::Look,
    Label::Look,
    Label::Fill,
    Label::Look,
    Label::DestroyTake,
    Label::LazyDone,
    Label::PurgeTake,
    Label::Look,
    Label::DecommitDone,
    Label::Look,
    Label::Look,
    Label::Look,
    Label::Look,
    Label::Reset,
    Label::Look,
    Label::TakeOver,
    Label::Trim,
    Label::Look,
    Label::Set,
    Label::Look,
    Label::Look,
    Label::Look,
    Label::Look,
    Label::Look,
];

impl Label {
    /// Its word.
    pub fn text(self) -> &'static str
        ensures { result.now ≡ label_word self }
    {
        match self {
            Label::Look => "look",
            Label::CutDone => "cutdone",
            Label::GrowDone => "growdone",
            Label::CommitDone => "commitdone",
            Label::Land => "land",
            Label::Back => "back",
            Label::PutLook => "putlook",
            Label::MergeDone => "mergedone",
            Label::Fill => "fill",
            Label::Advance => "advance",
            Label::PurgeTake => "purgetake",
            Label::LazyDone => "lazydone",
            Label::Offer => "offer",
            Label::OfferDone => "offerdone",
            Label::DecommitDone => "decommitdone",
            Label::ForcedDone => "forceddone",
            Label::Publish => "publish",
            Label::TakeOver => "takeover",
            Label::Reset => "reset",
            Label::Destroy => "destroy",
            Label::DestroyTake => "destroytake",
            Label::Counts => "counts",
            Label::Set => "set",
            Label::Widen => "widen",
            Label::JoinDone => "joindone",
            Label::Trim => "trim",
            Label::TrimDone => "trimdone",
            Label::DirtyMs => "dirtyms",
            Label::MuzzyMs => "muzzyms",
            Label::HookBox => "hookbox",
            Label::Bind => "bind",
            Label::Unbind => "unbind",
            Label::GrowLimit => "growlimit",
            Label::Live => "live",
            Label::Alloc => "alloc",
            Label::Dalloc => "dalloc",
            Label::Commit => "commit",
            Label::Decommit => "decommit",
            Label::PurgeLazy => "purge_lazy",
            Label::PurgeForced => "purge_forced",
            Label::Split => "split",
            Label::Merge => "merge",
            Label::Refused => "refused",
            Label::Done => "done",
            Label::Placed => "placed",
            Label::Dirty => "dirty",
            Label::Muzzy => "muzzy",
            Label::Retained => "retained",
        }
    }

    /// The label with this word, if there is one.
    #[tactic(auto, unfolding(crate::specs::Labels::label_of))]
    pub fn of(word: &[u8]) -> Option<Label>
        ensures { result ≡ label_of word.now }
    {
        if word.is_empty() || word.len() > LONGEST {
            return None;
        }
        let label = TABLE[place(word)];
        if word == label.text().as_bytes() {
            Some(label)
        } else {
            None
        }
    }
}

/// A place that no two labels share, by the length of the word and three of its bytes.
#[tactic(auto, unfolding(crate::specs::Labels::place_of))]
fn place(word: &[u8]) -> usize
    requires some { 0 < length word.now }
    requires short { length word.now ≤ 12 }
    ensures place { result ≡ place_of word.now }
    ensures within { result < 128 }
{
    let last = word.len() - 1;
    let middle = word.len() / 2;
    (46 * word.len()
        + 67 * usize::from(word[0])
        + 57 * usize::from(word[last])
        + 71 * usize::from(word[middle]))
        % PLACES
}
