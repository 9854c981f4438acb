//! Laws of flows: the contracts of these functions say them, and their bodies do nothing.
ghost use Rattle.std.specs.Prelude.{◌≡◌, ◌≢◌, ◌<◌, ℕ, List, length, pos};
ghost use Rattle.vp_terms.specs.Packages.{package_tree};
ghost use Rattle.vp_terms.specs.Rational.{Equals, Rational, whole};
ghost use Rattle.vp_terms.specs.WellFormed.{IsWellFormed};
ghost use Rattle.vp_terms.specs.declared.expr.Places.{Places};
ghost use Rattle.vp_terms.specs.declared.package.Package.{Package};
ghost use Rattle.vp_poly.specs.declared.mono.Term.{Term};
ghost use Rattle.vp_poly.specs.declared.scaled.Scaled.{Scaled};
ghost use Rattle.vp_poly.specs.Coefficient.{Coefficients};
ghost use Rattle.vp_poly.specs.Poly.{Powers};
ghost use Rattle.vp_poly.specs.Value.{Point};
ghost use Rattle.vp_flow.specs.Outcome.{AreFlows, Refuses};
ghost use Rattle.vp_flow.specs.Series.{lie};
ghost use Rattle.vp_flow.specs.Sides.{AreHeights, AreRightSides, Reaches, model, polys, rates_of};
ghost use Rattle.vp_flow.specs.Valued.{HasValue};
ghost use Rattle.vp_flow.specs.declared.error.FlowErr.{FlowErr};
ghost use Rattle.vp_flow.specs.declared.error.FlowErr.TheVariants.{Memory};

use vp_poly::laws::{
    coefficients_combine, coefficients_tell_values, equal_trees_have_one_polynomial,
    multiples_combine, polynomials_add_and_multiply, polynomials_are_unique,
    values_respect_equality,
};

/// A package has one list of canonical polynomials of its right sides and each state one height. Where
/// there are heights, no state reaches itself.
pub fn sides_and_heights_are_unique()
    ensures sides { (pkg : Package) (xs ys : List Scaled) → AreRightSides pkg xs →
        AreRightSides pkg ys → xs ≡ ys }
    ensures heights { (p : Places) (ss : List (List Term)) (g h : ℕ → ℕ) → AreHeights p ss g →
        AreHeights p ss h → (i : ℕ) → i < p.states → g i ≡ h i }
    ensures cycles { (p : Places) (ss : List (List Term)) (h : ℕ → ℕ) (i : ℕ) →
        AreHeights p ss h → ¬ Reaches p ss i i }
{
    polynomials_are_unique();
}

/// A package has one list of flows, or one refusal that isn't for want of memory, and not both.
pub fn one_outcome()
    ensures flows { (pkg : Package) (xs ys : List Scaled) → AreFlows pkg xs → AreFlows pkg ys →
        xs ≡ ys }
    ensures flows_alone { (pkg : Package) → IsWellFormed pkg → (xs : List Scaled) (e : FlowErr) →
        AreFlows pkg xs → Refuses pkg e → e ≡ Memory }
    ensures refusals { (pkg : Package) → IsWellFormed pkg → (e f : FlowErr) → e ≢ Memory →
        f ≢ Memory → Refuses pkg e → Refuses pkg f → e ≡ f }
{
    polynomials_are_unique();
}

/// Coefficients have one value at a point, and the same at equal points.
pub fn values_are_unique()
    ensures one { (f : Coefficients) (x : Point) (v w : Rational) → HasValue f x v →
        HasValue f x w → Equals v w }
    ensures equal { (f : Coefficients) (x : Point) (v w : Rational) → Equals v w →
        HasValue f x v → HasValue f x w }
    ensures points { (f : Coefficients) (x y : Point) (v : Rational) →
        ((k : ℕ) → Equals (x k) (y k)) → HasValue f x v → HasValue f y v }
{
    polynomials_are_unique();
    polynomials_add_and_multiply();
    coefficients_tell_values();
    coefficients_combine();
    multiples_combine();
    values_respect_equality();
}

/// Beyond the height of a state its Lie series is zero, and with it all further summands of its flow.
pub fn further_summands_are_zero()
    ensures { (pkg : Package) (qs : List Scaled) (h : ℕ → ℕ) → IsWellFormed pkg →
        AreRightSides pkg qs → AreHeights (model pkg) (polys qs) h → (i k : ℕ) →
        i < length pkg.names.states → h i < k → (m : Powers) →
        Equals (lie (model pkg) (rates_of pkg) i k m) (whole (pos 0)) }
{}

/// Packages that differ in their boxes alone have the same right sides, and the same refusals of their
/// flow.
pub fn equal_trees_have_the_same_flows()
    ensures sides { (p q : Package) → package_tree p ≡ package_tree q → (qs : List Scaled) →
        AreRightSides p qs → AreRightSides q qs }
    ensures rates { (p q : Package) → package_tree p ≡ package_tree q → rates_of p ≡ rates_of q }
    ensures refusals { (p q : Package) → package_tree p ≡ package_tree q → (e : FlowErr) →
        Refuses p e → Refuses q e }
{
    equal_trees_have_one_polynomial();
}
