//! The normal form of a formula.
ghost use Rattle.std.specs.Prelude.{◌≡◌, ◌≢◌, ℕ, Bool, ◌^◌, ◌-◌, ◌<◌, ◌≤◌, min, IsOk, IfOk, IsTrue, Err, true, false, length};
ghost use Rattle.vp_terms.specs.Rational.{difference as minus};
ghost use Rattle.vp_terms.specs.Meaning.{Assignment, compares, holds, value};
ghost use Rattle.vp_terms.specs.Places.{has_variable};
ghost use Rattle.vp_terms.specs.Variables.{all_variables, all_variables_of, has_places_below, formula_has_places_below};
ghost use Rattle.vp_terms.specs.declared.expr.Var.{Var};
ghost use Rattle.vp_words.specs.Record.{place_count};
ghost use Rattle.vp_poly.specs.Canonical.{IsEnvironment, StandsAt, StandsFor, StandsWithin, weights_of};
ghost use Rattle.vp_poly.specs.Coefficient.{Coefficients};
ghost use Rattle.vp_poly.specs.Places.{AreBelow, places_for};
ghost use Rattle.vp_poly.specs.Poly.{degree, norm};
ghost use Rattle.vp_poly.specs.Value.{Point};
ghost use Rattle.vp_poly.specs.Weights.{fits, weight_between};
ghost use Rattle.vp_logic.specs.Narrow.{comparisons_fit, is_narrow, terms_of};
ghost use Rattle.vp_logic.specs.Normal.{IsAtom, IsComparison, IsNormal};
ghost use Rattle.vp_logic.specs.Sized.{IsSized, TreeHasOnly};
ghost use Rattle.vp_logic.specs.Tree.{tree};
ghost use Rattle.vp_logic.specs.Truth.{rel_holds, tree_holds};

use crate::making::{always, both, either};
use crate::{Atom, Norm, Rel, negate};
use std::alloc::{AllocError, Global};
use vp_poly::{PolyErr, Scaled, Weight, of_difference, weigh, weights_of};
use vp_terms::{Cmp, Expr, Formula};
use vp_words::Counts;

/// The most terms that all comparisons of a formula may have.
const MOST_TERMS: u64 = 65536;

/// The normal form of a formula whose variables are replaced by what `env` has at their places:
/// each comparison becomes an atom over the canonical polynomial of the difference of its sides.
pub fn normal(alloc: Global, f: &Formula, counts: Counts, env: &[Scaled]) -> Result<Norm, PolyErr>
    requires environment { IsEnvironment (place_count counts) env.now }
    requires places { IsTrue (formula_has_places_below (places_for counts) (place_count counts) f.now) }

    // The answer is Wide exactly where a comparison is over or all have too many terms, unless
    // memory runs out.
    ensures within { IsOk result → is_narrow (places_for counts) (weights_of env.now) f.now ≡ true }
    ensures wide { result ≡ Err PolyErr.Wide → is_narrow (places_for counts) (weights_of env.now) f.now ≡ false }

    ensures form { (c : Var → Coefficients) →
        IsTrue (all_variables_of (has_variable (places_for counts)) f.now) →
        StandsFor (places_for counts) env.now c →
        IfOk result (λ n. IsNormal (places_for counts) (weights_of env.now) c f.now (tree n)) }
    ensures holds { (x : Point) (a : Assignment) →
        IsTrue (all_variables_of (has_variable (places_for counts)) f.now) →
        StandsAt (places_for counts) env.now x a →
        IfOk result (λ n. tree_holds (tree n) x ≡ holds f.now a) }

    // Each polynomial has a norm below 2^62, a degree of at most 12 and places of the model alone.
    ensures sized { IfOk result (λ n. IsSized (place_count counts) (tree n)) }

    // Where the variables of f are replaced by what has some places alone, so has each polynomial.
    ensures only { (used : Var → Bool) (allowed : ℕ → Bool) → IsTrue (all_variables_of used f.now) →
        StandsWithin (places_for counts) env.now used allowed →
        IfOk result (λ n. TreeHasOnly allowed (tree n)) }
{
    let weights = weights_of(alloc, env)?;
    if term_count(f, counts, &weights) > MOST_TERMS {
        return Err(PolyErr::Wide);
    }
    let n = form(alloc, f, counts, env)?;
    Ok(n)
}

/// The number of terms of all comparisons, at most 2^64 - 1, where `weights` are those of what stands
/// at each place.
pub fn term_count(f: &Formula, counts: Counts, weights: &[Weight]) -> u64
    requires size { length weights.now ≡ place_count counts }
    requires places { IsTrue (formula_has_places_below (places_for counts) (place_count counts) f.now) }
    ensures { result ≡ min (terms_of (places_for counts) weights.now f.now) (2 ^ 64 - 1) }
{
    match f {
        Formula::True => 0,
        Formula::Cmp(_, a, b) => {
            let left = weigh(a, counts, weights);
            let right = weigh(b, counts, weights);
            u64::from(left.terms.saturating_add(right.terms))
        }
        Formula::And(l, r) | Formula::Or(l, r) => {
            let left = term_count(l, counts, weights);
            left.saturating_add(term_count(r, counts, weights))
        }
        Formula::Not(inner) => term_count(inner, counts, weights),
    }
}

// The normal form where no comparison is over.
fn form(alloc: Global, f: &Formula, counts: Counts, env: &[Scaled]) -> Result<Norm, PolyErr>
    requires environment { IsEnvironment (place_count counts) env.now }
    requires places { IsTrue (formula_has_places_below (places_for counts) (place_count counts) f.now) }
    ensures within { IsOk result → comparisons_fit (places_for counts) (weights_of env.now) f.now ≡ true }
    ensures wide { result ≡ Err PolyErr.Wide → comparisons_fit (places_for counts) (weights_of env.now) f.now ≡ false }
    ensures form { (c : Var → Coefficients) →
        IsTrue (all_variables_of (has_variable (places_for counts)) f.now) →
        StandsFor (places_for counts) env.now c →
        IfOk result (λ n. IsNormal (places_for counts) (weights_of env.now) c f.now (tree n)) }
    ensures holds { (x : Point) (a : Assignment) →
        IsTrue (all_variables_of (has_variable (places_for counts)) f.now) →
        StandsAt (places_for counts) env.now x a →
        IfOk result (λ n. tree_holds (tree n) x ≡ holds f.now a) }
    ensures sized { IfOk result (λ n. IsSized (place_count counts) (tree n)) }
    ensures only { (used : Var → Bool) (allowed : ℕ → Bool) → IsTrue (all_variables_of used f.now) →
        StandsWithin (places_for counts) env.now used allowed →
        IfOk result (λ n. TreeHasOnly allowed (tree n)) }
{
    match f {
        Formula::True => {
            let n = always(alloc)?;
            Ok(n)
        }
        Formula::Cmp(cmp, a, b) => compare(alloc, *cmp, a, b, counts, env),
        Formula::And(l, r) => {
            let left = form(alloc, l, counts, env)?;
            let right = form(alloc, r, counts, env)?;
            let n = both(alloc, left, right)?;
            Ok(n)
        }
        Formula::Or(l, r) => {
            let left = form(alloc, l, counts, env)?;
            let right = form(alloc, r, counts, env)?;
            let n = either(alloc, left, right)?;
            Ok(n)
        }
        Formula::Not(inner) => {
            let n = form(alloc, inner, counts, env)?;
            let denied = negate(alloc, &n)?;
            Ok(denied)
        }
    }
}

// The normal form of a comparison.
fn compare(
    alloc: Global,
    cmp: Cmp,
    a: &Expr,
    b: &Expr,
    counts: Counts,
    env: &[Scaled],
) -> Result<Norm, PolyErr>
    requires environment { IsEnvironment (place_count counts) env.now }
    requires left { IsTrue (has_places_below (places_for counts) (place_count counts) a.now) }
    requires right { IsTrue (has_places_below (places_for counts) (place_count counts) b.now) }
    ensures within { IsOk result → fits (weight_between (places_for counts) (weights_of env.now) a.now b.now) ≡ true }
    ensures wide { result ≡ Err PolyErr.Wide →
        fits (weight_between (places_for counts) (weights_of env.now) a.now b.now) ≡ false }
    ensures form { (c : Var → Coefficients) →
        IsTrue (all_variables (has_variable (places_for counts)) a.now) →
        IsTrue (all_variables (has_variable (places_for counts)) b.now) →
        StandsFor (places_for counts) env.now c →
        IfOk result (λ n. IsComparison (places_for counts) (weights_of env.now) c cmp a.now b.now (tree n)) }
    ensures holds { (x : Point) (v : Assignment) →
        IsTrue (all_variables (has_variable (places_for counts)) a.now) →
        IsTrue (all_variables (has_variable (places_for counts)) b.now) →
        StandsAt (places_for counts) env.now x v →
        IfOk result (λ n. tree_holds (tree n) x ≡ compares cmp (value a.now v) (value b.now v)) }
    ensures sized { IfOk result (λ n. IsSized (place_count counts) (tree n)) }
    ensures only { (used : Var → Bool) (allowed : ℕ → Bool) → IsTrue (all_variables used a.now) →
        IsTrue (all_variables used b.now) → StandsWithin (places_for counts) env.now used allowed →
        IfOk result (λ n. TreeHasOnly allowed (tree n)) }
{
    match cmp {
        Cmp::Le => difference(alloc, Rel::Ge, b, a, counts, env),
        Cmp::Lt => difference(alloc, Rel::Gt, b, a, counts, env),
        Cmp::Ge => difference(alloc, Rel::Ge, a, b, counts, env),
        Cmp::Gt => difference(alloc, Rel::Gt, a, b, counts, env),
        Cmp::Eq => difference(alloc, Rel::Eq, a, b, counts, env),
        Cmp::Ne => {
            let above = difference(alloc, Rel::Gt, a, b, counts, env)?;
            let below = difference(alloc, Rel::Gt, b, a, counts, env)?;
            let n = either(alloc, above, below)?;
            Ok(n)
        }
    }
}

// The atom that compares a - b with 0.
fn difference(
    alloc: Global,
    rel: Rel,
    a: &Expr,
    b: &Expr,
    counts: Counts,
    env: &[Scaled],
) -> Result<Norm, PolyErr>
    requires environment { IsEnvironment (place_count counts) env.now }
    requires left { IsTrue (has_places_below (places_for counts) (place_count counts) a.now) }
    requires right { IsTrue (has_places_below (places_for counts) (place_count counts) b.now) }
    ensures within { IsOk result → fits (weight_between (places_for counts) (weights_of env.now) a.now b.now) ≡ true }
    ensures wide { result ≡ Err PolyErr.Wide →
        fits (weight_between (places_for counts) (weights_of env.now) a.now b.now) ≡ false }
    ensures form { (c : Var → Coefficients) →
        IsTrue (all_variables (has_variable (places_for counts)) a.now) →
        IsTrue (all_variables (has_variable (places_for counts)) b.now) →
        StandsFor (places_for counts) env.now c →
        IfOk result (λ n. IsAtom (places_for counts) (weights_of env.now) c rel a.now b.now (tree n)) }
    ensures holds { (x : Point) (v : Assignment) →
        IsTrue (all_variables (has_variable (places_for counts)) a.now) →
        IsTrue (all_variables (has_variable (places_for counts)) b.now) →
        StandsAt (places_for counts) env.now x v →
        IfOk result (λ n. tree_holds (tree n) x ≡ rel_holds rel (minus (value a.now v) (value b.now v))) }
    ensures sized { IfOk result (λ n. IsSized (place_count counts) (tree n)) }
    ensures only { (used : Var → Bool) (allowed : ℕ → Bool) → IsTrue (all_variables used a.now) →
        IsTrue (all_variables used b.now) → StandsWithin (places_for counts) env.now used allowed →
        IfOk result (λ n. TreeHasOnly allowed (tree n)) }
{
    let scaled = of_difference(alloc, a, b, counts, env)?;
    Ok(Norm::Atom(Atom {
        poly: scaled.poly,
        rel,
    }))
}
