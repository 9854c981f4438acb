//! Atoms that compare two expressions.
ghost use Rattle.std.specs.Prelude.{◌≡◌, ℕ, Bool, IfOk, IsOk, IsTrue, Err, true, false};
ghost use Rattle.vp_terms.specs.Meaning.{Assignment, value};
ghost use Rattle.vp_terms.specs.Places.{has_variable};
ghost use Rattle.vp_terms.specs.Rational.{difference as minus};
ghost use Rattle.vp_terms.specs.Variables.{all_variables, has_places_below};
ghost use Rattle.vp_terms.specs.declared.expr.Var.{Var};
ghost use Rattle.vp_words.specs.Record.{place_count};
ghost use Rattle.vp_poly.specs.Canonical.{IsEnvironment, StandsAt, StandsFor, StandsWithin, weights_of};
ghost use Rattle.vp_poly.specs.Coefficient.{Coefficients};
ghost use Rattle.vp_poly.specs.Places.{places_for};
ghost use Rattle.vp_poly.specs.Value.{Point};
ghost use Rattle.vp_poly.specs.Weights.{fits, weight_between};
ghost use Rattle.vp_logic.specs.Normal.{IsAtom};
ghost use Rattle.vp_logic.specs.Sized.{IsSized, TreeHasOnly};
ghost use Rattle.vp_logic.specs.Tree.{tree};
ghost use Rattle.vp_logic.specs.Truth.{rel_holds, tree_holds};

use std::alloc::Global;
use vp_logic::{Atom, Norm, Rel};
use vp_poly::laws::multiples_keep_signs;
use vp_poly::{PolyErr, Scaled, of_difference};
use vp_terms::Expr;
use vp_words::Counts;

/// The atom that compares a - b with 0, where variables are replaced by what `env` has at their places.
pub(crate) fn difference(
    alloc: Global,
    rel: Rel,
    a: &Expr,
    b: &Expr,
    counts: Counts,
    env: &[Scaled],
) -> Result<Norm, PolyErr>
    requires environment { IsEnvironment (place_count counts) env.now }
    requires left { IsTrue (has_places_below (places_for counts) (place_count counts) a.now) }
    requires right { IsTrue (has_places_below (places_for counts) (place_count counts) b.now) }
    ensures within { IsOk result → fits (weight_between (places_for counts) (weights_of env.now) a.now b.now) ≡ true }
    ensures wide { result ≡ Err PolyErr.Wide →
        fits (weight_between (places_for counts) (weights_of env.now) a.now b.now) ≡ false }
    ensures form { (c : Var → Coefficients) →
        IsTrue (all_variables (has_variable (places_for counts)) a.now) →
        IsTrue (all_variables (has_variable (places_for counts)) b.now) →
        StandsFor (places_for counts) env.now c →
        IfOk result (λ n. IsAtom (places_for counts) (weights_of env.now) c rel a.now b.now (tree n)) }
    ensures holds { (z : Point) (v : Assignment) →
        IsTrue (all_variables (has_variable (places_for counts)) a.now) →
        IsTrue (all_variables (has_variable (places_for counts)) b.now) →
        StandsAt (places_for counts) env.now z v →
        IfOk result (λ n. tree_holds (tree n) z ≡ rel_holds rel (minus (value a.now v) (value b.now v))) }
    ensures sized { IfOk result (λ n. IsSized (place_count counts) (tree n)) }
    ensures only { (used : Var → Bool) (allowed : ℕ → Bool) → IsTrue (all_variables used a.now) →
        IsTrue (all_variables used b.now) → StandsWithin (places_for counts) env.now used allowed →
        IfOk result (λ n. TreeHasOnly allowed (tree n)) }
{
    multiples_keep_signs();
    let scaled = of_difference(alloc, a, b, counts, env)?;
    Ok(Norm::Atom(Atom {
        poly: scaled.poly,
        rel,
    }))
}
