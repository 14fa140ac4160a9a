//! The words of a line, read one behind the other.

ghost use Rattle.std.specs.Prelude.{◌≡◌, ◌<◌, ◌≤◌, true, false, None, [], ◌∷◌, IfSome, length, slice_index, take};
ghost use Rattle.std.specs.List.{list_all};
ghost use Rattle.text_words.specs.Words.{is_in_word, words_of};

use std::marker::Model;

/// The words of a line that are left, from front to back, parted by one separator each. Contracts see them as the list
/// of their bytes.
#[derive(Drop)]
pub struct Words<'a> {
    left: &'a [u8],
    separator: u8,
    is_ended: bool,
}

impl<'a> Model for Words<'a> {
    ghost use Rattle.std.specs.Prelude.{List, ℕ, [], if◌then◌else◌};
    ghost use Rattle.text_words.specs.Words.{words_of};

    ghost Value = { List (List ℕ) };

    ghost view = { λ w. if w.is_ended then [] else words_of w.separator w.left.now };
}

impl<'a> Words<'a> {
    /// All words of a line: one more than it has separators, so a line of no bytes has one word of no bytes.
    pub fn new(line: &'a [u8], separator: u8) -> Words<'a>
        ensures { result ≡ words_of separator line.now }
    {
        Words {
            left: line,
            separator,
            is_ended: false,
        }
    }

    /// Whether no word is left.
    pub fn is_empty(&self) -> bool
        ensures yes { result ≡ true → self.now ≡ [] }
        ensures no { result ≡ false → 0 < length self.now }
    {
        self.is_ended
    }

    /// The next word, if one is left.
    #[tactic(auto, using(crate::proofs::Cuts::words_cut, crate::proofs::Cuts::words_end))]
    #[inline(always)]
    pub fn next(&mut self) -> Option<&'a [u8]>
        ensures some { IfSome result (λ word. self.old ≡ word.now ∷ self.new) }
        ensures none { result ≡ None → self.old ≡ [] }
        ensures end { result ≡ None → self.new ≡ [] }
    {
        if self.is_ended {
            return None;
        }
        let left = self.left;
        let end = before(left, self.separator);
        if end < left.len() {
            self.left = &left[end + 1..];
            Some(&left[..end])
        } else {
            self.is_ended = true;
            Some(left)
        }
    }
}

/// How many bytes stand before the first separator.
#[inline(always)]
fn before(bytes: &[u8], separator: u8) -> usize
    ensures within { result ≤ length bytes.now }
    ensures plain { list_all (is_in_word separator) (take result bytes.now) ≡ true }
    ensures end { result < length bytes.now → is_in_word separator (slice_index bytes.now result) ≡ false }
{
    for at in 0..bytes.len() {
        if bytes[at] == separator {
            return at;
        }
    }
    bytes.len()
}
