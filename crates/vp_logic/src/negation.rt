//! Negated normal forms.
ghost use Rattle.std.specs.Prelude.{◌≡◌, ℕ, Bool, not, negsuc, length, IfOk};
ghost use Rattle.vp_terms.specs.Rational.{Equals, product, whole};
ghost use Rattle.vp_poly.specs.Poly.{IsPoly, IsWithin, degree, norm, scaled};
ghost use Rattle.vp_poly.specs.Places.{AreBelow, HaveOnly};
ghost use Rattle.vp_poly.specs.Value.{Point, value_at};
ghost use Rattle.vp_logic.specs.Sized.{IsSizedAtom, IsSized, AreSized, TreeHasOnly, TreesHaveOnly};
ghost use Rattle.vp_logic.specs.Truth.{atom_holds, tree_holds, all_hold, any_holds};
ghost use Rattle.vp_logic.specs.Tree.{tree, trees, atom, negated_atom, negated, negated_each};

use crate::making::either;
use crate::{Atom, Norm, Norms, Rel};
use std::alloc::{AllocError, Global};
use vp_poly::Poly;

/// The form that holds exactly where this one does not. `And` becomes `Or` of the negated members
/// in order, `Or` becomes `And`, `p >= 0` becomes `-p > 0`, `p > 0` becomes `-p >= 0`, and `p = 0`
/// becomes `p > 0` or `-p > 0`.
#[cycle(negate)]
#[tactic(auto, using(crate::proofs::Negating::negating))]
pub fn negate(alloc: Global, norm: &Norm) -> Result<Norm, AllocError>
    ensures form { IfOk result (λ m. tree m ≡ negated (tree norm.now)) }
    ensures holds { IfOk result (λ m. (x : Point) → tree_holds (tree m) x ≡ not (tree_holds (tree norm.now) x)) }
    ensures sized { (v : ℕ) → IsSized v (tree norm.now) → IfOk result (λ m. IsSized v (tree m)) }
    ensures only { (allowed : ℕ → Bool) → TreeHasOnly allowed (tree norm.now) →
        IfOk result (λ m. TreeHasOnly allowed (tree m)) }
{
    match norm {
        Norm::Atom(atom) => negate_atom(alloc, atom),
        Norm::And(members) => Ok(Norm::Or(Box::new(alloc, negate_each(alloc, members)?)?)),
        Norm::Or(members) => Ok(Norm::And(Box::new(alloc, negate_each(alloc, members)?)?)),
    }
}

#[cycle(negate)]
#[tactic(auto, using(crate::proofs::Negating::negating))]
fn negate_each(alloc: Global, norms: &Norms) -> Result<Norms, AllocError>
    ensures form { IfOk result (λ ms. trees ms ≡ negated_each (trees norms.now)) }
    ensures all { IfOk result (λ ms. (x : Point) → all_hold (trees ms) x ≡ not (any_holds (trees norms.now) x)) }
    ensures any { IfOk result (λ ms. (x : Point) → any_holds (trees ms) x ≡ not (all_hold (trees norms.now) x)) }
    ensures sized { (v : ℕ) → AreSized v (trees norms.now) → IfOk result (λ ms. AreSized v (trees ms)) }
    ensures only { (allowed : ℕ → Bool) → TreesHaveOnly allowed (trees norms.now) →
        IfOk result (λ ms. TreesHaveOnly allowed (trees ms)) }
{
    match norms {
        Norms::End => Ok(Norms::End),
        Norms::More(first, rest) => {
            let first = negate(alloc, first)?;
            let rest = negate_each(alloc, rest)?;
            Ok(Norms::More(first, Box::new(alloc, rest)?))
        }
    }
}

#[tactic(auto, using(crate::proofs::Negating::negating))]
fn negate_atom(alloc: Global, atom: &Atom) -> Result<Norm, AllocError>
    ensures form { IfOk result (λ m. tree m ≡ negated_atom atom.now.rel atom.now.poly) }
    ensures holds { IfOk result (λ m. (x : Point) → tree_holds (tree m) x ≡ not (atom_holds atom.now x)) }
    ensures sized { (v : ℕ) → IsSizedAtom v atom.now → IfOk result (λ m. IsSized v (tree m)) }
    ensures only { (allowed : ℕ → Bool) → HaveOnly allowed atom.now.poly →
        IfOk result (λ m. TreeHasOnly allowed (tree m)) }
{
    let below = negative(alloc, &atom.poly)?;
    match atom.rel {
        Rel::Ge => Ok(compared(below, Rel::Gt)),
        Rel::Gt => Ok(compared(below, Rel::Ge)),
        Rel::Eq => {
            let above = atom.poly.copy(alloc)?;
            let n = either(alloc, compared(above, Rel::Gt), compared(below, Rel::Gt))?;
            Ok(n)
        }
    }
}

// The atom of a polynomial and a relation.
fn compared(poly: Poly, rel: Rel) -> Norm
    ensures { tree result ≡ atom rel poly }
{
    Norm::Atom(Atom { poly, rel })
}

// The negative of a polynomial.
fn negative(alloc: Global, poly: &Poly) -> Result<Poly, AllocError>
    ensures terms { IfOk result (λ p. p ≡ scaled (negsuc 0) poly.now) }
    ensures canonical { IfOk result IsPoly }
    ensures values { IfOk result (λ p. (x : Point) →
        Equals (value_at p x) (product (whole (negsuc 0)) (value_at poly.now x))) }
    ensures sized { IfOk result (λ p. IsWithin p (norm poly.now) (degree poly.now) (length poly.now)) }
    ensures places { (v : ℕ) → AreBelow v poly.now → IfOk result (AreBelow v) }
    ensures only { (allowed : ℕ → Bool) → HaveOnly allowed poly.now →
        IfOk result (HaveOnly allowed) }
{
    let _terms = poly.len();
    poly.scale(alloc, -1)
}
