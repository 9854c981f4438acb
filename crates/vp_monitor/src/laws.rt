//! Laws of monitors and obligations: the contracts of these functions say them, and their bodies do
//! nothing.
ghost use Rattle.std.specs.Prelude.{◌≡◌, ◌≢◌, ◌<◌, ◌^◌, ℕ, All, List, length};
ghost use Rattle.vp_terms.specs.Meaning.{Assignment};
ghost use Rattle.vp_terms.specs.Rational.{Equals};
ghost use Rattle.vp_monitor.specs.Flowing.{IsExactFlow};
ghost use Rattle.vp_terms.specs.Model.{IsInductive, model_of};
ghost use Rattle.vp_terms.specs.Packages.{package_tree};
ghost use Rattle.vp_terms.specs.Plant.{Flow};
ghost use Rattle.vp_terms.specs.WellFormed.{IsWellFormed};
ghost use Rattle.vp_terms.specs.declared.package.Package.{Package};
ghost use Rattle.vp_logic.specs.Tree.{conjuncts_of, tree};
ghost use Rattle.vp_monitor.specs.declared.error.MonErr.{MonErr};
ghost use Rattle.vp_monitor.specs.declared.error.MonErr.TheVariants.{Memory};
ghost use Rattle.vp_monitor.specs.declared.types.Monitors.{Monitors};
ghost use Rattle.vp_monitor.specs.declared.types.Obligation.{Obligation};
ghost use Rattle.vp_monitor.specs.Meaning.{AreSized, Mean};
ghost use Rattle.vp_monitor.specs.Monitors.{AreMonitors};
ghost use Rattle.vp_monitor.specs.Obligations.{AreNeverMet, AreObligations, HasFewCases, RefusesCases};
ghost use Rattle.vp_monitor.specs.Refusals.{Passes, Refuses};
ghost use Rattle.vp_monitor.specs.Same.{SameMonitors, SameObligations};

use vp_ctrl::laws::{
    equal_trees_have_the_same_paths, paths_are_unique, replacing_keeps_equal_trees,
};
use vp_flow::laws::{
    equal_trees_have_the_same_flows, one_outcome, sides_and_heights_are_unique, values_are_unique,
};
use vp_logic::laws::{
    cases_split_parts, equal_trees_have_one_normal_form, forms_keep_their_meaning,
    normal_forms_are_unique, normal_forms_hold_as_formulas, renamed_forms_hold_before,
};
use vp_poly::laws::{
    equal_trees_have_one_polynomial, points_have_assignments, polynomials_are_unique,
    renamings_are_exchanges,
};
use vp_terms::laws::{
    meaning_depends_on_variables, programs_relate_values, variables_pass_tests,
    well_formed_parts_have_allowed_variables,
};

/// Where no case of any of the four obligations can be met, the invariant is inductive.
pub fn unmet_obligations_make_invariants_inductive()
    ensures { (flow : Flow) (pkg : Package) (m : Monitors) (os : List Obligation) → IsWellFormed pkg →
        AreMonitors pkg m → Passes pkg → AreSized m → Mean flow pkg m → AreObligations pkg m os →
        AreNeverMet os → IsInductive (model_of flow pkg) }
{
    renamings_are_exchanges();
    points_have_assignments();
    forms_keep_their_meaning();
    renamed_forms_hold_before();
    normal_forms_hold_as_formulas();
    cases_split_parts();
    meaning_depends_on_variables();
    well_formed_parts_have_allowed_variables();
    variables_pass_tests();
    programs_relate_values();
}

/// Two exact flows of a package give each state equal values.
pub fn exact_flows_agree()
    ensures { (pkg : Package) (f g : Flow) → IsExactFlow pkg f → IsExactFlow pkg g → (i : ℕ) →
        i < length pkg.names.states → (a : Assignment) → Equals (f i a) (g i a) }
{
    points_have_assignments();
    sides_and_heights_are_unique();
    values_are_unique();
}

/// The form of where a run may start has fewer than 2^32 conjuncts, and the plant has.
pub fn monitors_have_few_conjuncts()
    ensures init { (pkg : Package) (m : Monitors) → IsWellFormed pkg → AreMonitors pkg m →
        length (conjuncts_of (tree m.init)) < 2 ^ 32 }
    ensures plant { (pkg : Package) (m : Monitors) → IsWellFormed pkg → AreMonitors pkg m →
        length m.plant < 2 ^ 32 }
{}

/// Packages that differ in their boxes alone have the same monitors and obligations, and the same
/// refusals of these.
pub fn equal_trees_have_the_same_monitors()
    ensures monitors { (p q : Package) → package_tree p ≡ package_tree q → (m : Monitors) →
        AreMonitors p m → AreMonitors q m }
    ensures passes { (p q : Package) → package_tree p ≡ package_tree q → Passes p → Passes q }
    ensures refusals { (p q : Package) → package_tree p ≡ package_tree q → (e : MonErr) →
        Refuses p e → Refuses q e }
    ensures obligations { (p q : Package) → package_tree p ≡ package_tree q → (m : Monitors)
        (os : List Obligation) → AreObligations p m os → AreObligations q m os }
    ensures cases { (p q : Package) → package_tree p ≡ package_tree q → (m : Monitors) (e : MonErr) →
        RefusesCases p m e → RefusesCases q m e }
{
    equal_trees_have_one_normal_form();
    equal_trees_have_one_polynomial();
    equal_trees_have_the_same_flows();
    equal_trees_have_the_same_paths();
    replacing_keeps_equal_trees();
}

/// A package has the same monitors but for their boxes, or one refusal that isn't for want of memory,
/// and where nothing refuses the monitors there is no such refusal.
pub fn monitors_have_one_outcome()
    ensures monitors { (pkg : Package) → IsWellFormed pkg → (m n : Monitors) → AreMonitors pkg m →
        AreMonitors pkg n → SameMonitors m n }
    ensures passes_alone { (pkg : Package) → IsWellFormed pkg → (e : MonErr) → Passes pkg →
        Refuses pkg e → e ≡ Memory }
    ensures refusals { (pkg : Package) → IsWellFormed pkg → (e f : MonErr) → e ≢ Memory → f ≢ Memory →
        Refuses pkg e → Refuses pkg f → e ≡ f }
{
    normal_forms_are_unique();
    one_outcome();
    paths_are_unique();
    polynomials_are_unique();
    sides_and_heights_are_unique();
}

/// The same monitors of a package have the same obligations but for their boxes, or one refusal that
/// isn't for want of memory, and where each obligation has few cases there is no such refusal.
pub fn obligations_have_one_outcome()
    ensures obligations { (pkg : Package) (m n : Monitors) → SameMonitors m n → (os ps : List Obligation) →
        AreObligations pkg m os → AreObligations pkg n ps → SameObligations os ps }
    ensures few_alone { (pkg : Package) (m n : Monitors) → SameMonitors m n → (os : List Obligation) →
        AreObligations pkg m os → All HasFewCases os → (e : MonErr) → RefusesCases pkg n e → e ≡ Memory }
    ensures refusals { (pkg : Package) (m n : Monitors) → SameMonitors m n → (e f : MonErr) → e ≢ Memory →
        f ≢ Memory → RefusesCases pkg m e → RefusesCases pkg n f → e ≡ f }
{
    cases_split_parts();
    normal_forms_are_unique();
    polynomials_are_unique();
}
