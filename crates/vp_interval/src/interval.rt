//! Intervals and how they are made.
ghost use Rattle.std.specs.Prelude.{◌≡◌, ◌↔◌, IsTrue, IsSome, IfSome};
ghost use Rattle.vp_words.specs.Ends.{encloses};
ghost use Rattle.vp_words.specs.Number.{IsFinite};
ghost use Rattle.vp_interval.specs.Rounding.{IsValid};

use vp_words::{Word, encloses, same};

/// The rationals from `lo` to `hi`, where an infinite end is no bound. `lo` is at most `hi` and not
/// `inf`, and `hi` is not `-inf`.
#[derive(Clone, Copy, PartialEq, Eq, Debug)]
pub struct Interval {
    /// The low end.
    pub lo: Word,
    /// The high end.
    pub hi: Word,
    pub ghost valid: { IsValid lo hi },
}

impl Interval {
    /// The interval with these ends, if they are the ends of one.
    pub fn of(lo: Word, hi: Word) -> Option<Interval>
        ensures some { IsSome result ↔ IsTrue (encloses lo hi) }
        ensures lo { IfSome result (λ v. v.lo ≡ lo) }
        ensures hi { IfSome result (λ v. v.hi ≡ hi) }
    {
        if encloses(lo, hi) {
            Some(Interval { lo, hi })
        } else {
            None
        }
    }

    /// The interval of one number.
    pub fn point(word: Word) -> Interval
        requires { IsFinite word }
        ensures lo { result.lo ≡ word }
        ensures hi { result.hi ≡ word }
    {
        Interval { lo: word, hi: word }
    }

    /// The word that both ends are, if they are the same.
    pub fn as_point(&self) -> Option<Word>
        ensures some { IsSome result ↔ (self.now.lo ≡ self.now.hi) }
        ensures word { IfSome result (λ w. w ≡ self.now.lo) }
        ensures finite { IfSome result IsFinite }
    {
        if same(self.lo, self.hi) {
            Some(self.lo)
        } else {
            None
        }
    }
}
