//! Laws of intervals: the contracts of these functions say them, and their bodies do nothing.
ghost use Rattle.std.specs.Prelude.{◌≡◌, ◌↔◌, ◌<◌, ◌≤◌, ◌^◌, ℕ, ℤ, Bool, List, None, Some, length, map, slice_get, All, IsTrue};
ghost use Rattle.vp_words.specs.Number.{IsFinite};
ghost use Rattle.vp_terms.specs.Rational.{Rational, Equals, whole, sum as rational_sum, product as rational_product, power as rational_power};
ghost use Rattle.vp_poly.specs.declared.mono.Term.{Term};
ghost use Rattle.vp_poly.specs.Places.{AreBelow, HaveOnly};
ghost use Rattle.vp_poly.specs.Poly.{IsPoly, norm};
ghost use Rattle.vp_poly.specs.Value.{Point, value_at};
ghost use Rattle.vp_logic.specs.Sized.{IsSized, EachIsSized};
ghost use Rattle.vp_logic.specs.Tree.{Tree};
ghost use Rattle.vp_logic.specs.Truth.{tree_holds, parts_hold};
ghost use Rattle.vp_interval.specs.declared.truth.Truth.{Truth};
ghost use Rattle.vp_interval.specs.declared.truth.Truth.TheVariants.{Yes};
ghost use Rattle.vp_interval.specs.Formula.{FormFits, IsFirst, PartsFit, first_from, truth, truths};
ghost use Rattle.vp_interval.specs.Interval.{ends};
ghost use Rattle.vp_interval.specs.Polynomial.{AreSmall, interval_of};
ghost use Rattle.vp_interval.specs.Represents.{Represents, RepresentEach, AreValid};
ghost use Rattle.vp_interval.specs.Rounding.{Ends, IsValid, point, sum, product, power};
ghost use Rattle.vp_interval.specs.Truth.{Tells};

use crate::Interval;

/// Each interval represents some rational.
pub fn some_value_is_represented(v: Interval)
    ensures { (q : Rational) × Represents (ends v) q }
{}

/// Boxes represent some values of their places.
pub fn some_values_are_represented(boxes: &[Interval])
    ensures valid { AreValid (map ends boxes.now) }
    ensures values { (x : Point) × RepresentEach (map ends boxes.now) x }
{}

/// The same of any list of ends that are valid.
pub fn valid_boxes_represent_values()
    ensures { (boxes : List Ends) → AreValid boxes → (x : Point) × RepresentEach boxes x }
{}

/// What the first truth that isn't Yes is, and that there is none exactly where all are Yes.
pub fn first_truths()
    ensures none { (ts : List Truth) → (first_from 1 ts ≡ None) ↔ All (λ t. t ≡ Yes) ts }
    ensures some { (ts : List Truth) (k : ℕ) (t : Truth) → first_from 1 ts ≡ Some (k, t) →
        IsFirst ts k t }
{}

/// Equal rationals stand in the same intervals.
pub fn equal_values_are_represented_alike()
    ensures { (v : Ends) (q r : Rational) → Equals q r → Represents v q → Represents v r }
{}

/// Where both ends are the same they are a finite number, and only that number is represented.
pub fn points_are_exact()
    ensures valid { (z : ℤ) → IsFinite z → IsValid (point z).lo (point z).hi }
    ensures represented { (z : ℤ) → Represents (point z) (whole z) }
    ensures finite { (v : Ends) → IsValid v.lo v.hi → v.lo ≡ v.hi → IsFinite v.lo }
    ensures value { (v : Ends) (q : Rational) → IsValid v.lo v.hi → v.lo ≡ v.hi →
        Represents v q → Equals q (whole v.lo) }
{}

/// Sums, products and powers of valid ends are valid, and represent those of what is represented.
pub fn arithmetic_is_sound()
    ensures valid_sum { (v w : Ends) → IsValid v.lo v.hi → IsValid w.lo w.hi →
        IsValid (sum v w).lo (sum v w).hi }
    ensures valid_product { (v w : Ends) → IsValid v.lo v.hi → IsValid w.lo w.hi →
        IsValid (product v w).lo (product v w).hi }
    ensures valid_power { (v : Ends) (k : ℕ) → IsValid v.lo v.hi →
        IsValid (power v k).lo (power v k).hi }
    ensures sums { (v w : Ends) (q r : Rational) → IsValid v.lo v.hi → IsValid w.lo w.hi →
        Represents v q → Represents w r → Represents (sum v w) (rational_sum q r) }
    ensures products { (v w : Ends) (q r : Rational) → IsValid v.lo v.hi → IsValid w.lo w.hi →
        Represents v q → Represents w r → Represents (product v w) (rational_product q r) }
    ensures powers { (v : Ends) (q : Rational) (k : ℕ) → 1 ≤ k → IsValid v.lo v.hi →
        Represents v q → Represents (power v k) (rational_power q k) }
{}

/// The interval of a polynomial over valid boxes is valid, and represents each value of the
/// polynomial where the values of all places stand in their boxes.
pub fn polynomials_are_enclosed()
    ensures valid { (boxes : List Ends) (ts : List Term) → AreValid boxes →
        AreBelow (length boxes) ts → AreSmall ts →
        IsValid (interval_of boxes ts).lo (interval_of boxes ts).hi }
    ensures values { (boxes : List Ends) (ts : List Term) (x : Point) → AreValid boxes →
        RepresentEach boxes x → AreBelow (length boxes) ts → AreSmall ts →
        Represents (interval_of boxes ts) (value_at ts x) }
{}

/// The interval of a polynomial goes by the boxes of the places that it has.
pub fn intervals_depend_on_places()
    ensures { (allowed : ℕ → Bool) (ts : List Term) (boxes others : List Ends) → HaveOnly allowed ts →
        ((k : ℕ) → IsTrue (allowed k) → slice_get boxes k ≡ slice_get others k) →
        interval_of boxes ts ≡ interval_of others ts }
{}

/// A normal form that is Yes holds where the values of all places stand in their boxes, and one that
/// is No does not. Where all parts are Yes, all hold there.
pub fn truths_are_sound()
    ensures one { (boxes : List Ends) (n : Tree) (x : Point) → AreValid boxes →
        RepresentEach boxes x → FormFits (length boxes) n → Tells (truth boxes n) (tree_holds n x) }
    ensures all { (boxes : List Ends) (ns : List Tree) (x : Point) → AreValid boxes →
        RepresentEach boxes x → PartsFit (length boxes) ns →
        All (λ t. t ≡ Yes) (truths boxes ns) → IsTrue (parts_hold ns x) }
{}

/// Polynomials with a norm below 2^62 have coefficients below it, and what has its variables among
/// some places has them among more. So forms of such polynomials may be told the truth of.
pub fn small_forms_fit()
    ensures small { (ts : List Term) → norm ts < 2 ^ 62 → AreSmall ts }
    ensures all_places { (ts : List Term) → IsPoly ts → AreBelow 32 ts }
    ensures more_places { (v n : ℕ) (ts : List Term) → v ≤ n → AreBelow v ts → AreBelow n ts }
    ensures form { (v n : ℕ) (t : Tree) → v ≤ n → IsSized v t → FormFits n t }
    ensures parts { (v n : ℕ) (ts : List Tree) → v ≤ n → EachIsSized v ts → PartsFit n ts }
{}
