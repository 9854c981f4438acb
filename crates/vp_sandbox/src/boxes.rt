//! The boxes that a record's words are, at their places.
ghost use Rattle.std.specs.Prelude.{◌≡◌, ◌+◌, ◌≤◌, map, length, IsTrue};
ghost use Rattle.vp_words.specs.Ends.{encloses};
ghost use Rattle.vp_words.specs.Record.{pairs_then_finite};
ghost use Rattle.vp_interval.specs.Interval.{ends};
ghost use Rattle.vp_interval.specs.Rounding.{point};
ghost use Rattle.vp_sandbox.specs.Boxes.{boxes_of, first_control, first_next_control, first_next_state, placed, tau_place};

use vp_interval::Interval;
use vp_words::{Counts, Word};

// From this place on, sets a box of two words so often, and then the point of each further word.
pub(crate) fn set_boxes(boxes: &mut [Interval; 32], place: usize, pairs: u8, words: &[Word])
    requires valid { IsTrue (pairs_then_finite pairs words.now) }
    requires room { place + length (boxes_of pairs words.now) ≤ 32 }
    ensures boxes { map ends boxes.new ≡ placed place (boxes_of pairs words.now) (map ends boxes.old) }
    ensures size { length boxes.new ≡ 32 }
{
    if pairs == 0 {
        return set_points(boxes, place, words);
    }
    match words {
        [lo, hi, rest @ ..] => {
            boxes[place] = between(*lo, *hi);
            set_boxes(boxes, place + 1, pairs - 1, rest);
        }
        _ => (),
    }
}

// The interval with these ends.
fn between(lo: Word, hi: Word) -> Interval
    requires { IsTrue (encloses lo hi) }
    ensures { ends result ≡ record { lo = lo; hi = hi } }
{
    Interval { lo, hi }
}

// From this place on, sets the point of each word.
pub(crate) fn set_points(boxes: &mut [Interval; 32], place: usize, words: &[Word])
    requires valid { IsTrue (pairs_then_finite 0 words.now) }
    requires room { place + length words.now ≤ 32 }
    ensures boxes { map ends boxes.new ≡ placed place (map point words.now) (map ends boxes.old) }
    ensures size { length boxes.new ≡ 32 }
{
    match words {
        [word, rest @ ..] => {
            boxes[place] = Interval::point(*word);
            set_points(boxes, place + 1, rest);
        }
        [] => (),
    }
}

// The places of the first variable of each kind, and that of `tau`.

pub(crate) fn first_control(counts: Counts) -> usize
    ensures { result ≡ first_control counts }
{
    counts.params as usize + counts.states as usize
}

pub(crate) fn first_next_state(counts: Counts) -> usize
    ensures { result ≡ first_next_state counts }
{
    counts.params as usize + counts.states as usize + counts.controls as usize
}

pub(crate) fn first_next_control(counts: Counts) -> usize
    ensures { result ≡ first_next_control counts }
{
    counts.params as usize + 2 * counts.states as usize + counts.controls as usize
}

pub(crate) fn tau_place(counts: Counts) -> usize
    ensures { result ≡ tau_place counts }
{
    counts.params as usize + 2 * counts.states as usize + 2 * counts.controls as usize
}
