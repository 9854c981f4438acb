//! Laws of certificates: the contracts of these functions say them, and their bodies do nothing.
ghost use Rattle.std.specs.Prelude.{◌≡◌, ◌≢◌, ◌≤◌, ℕ, IsTrue, All, List, map, true, false};
ghost use Rattle.vp_terms.specs.Certificates.{IsCertificate};
ghost use Rattle.vp_terms.specs.Packages.{term_tree};
ghost use Rattle.vp_terms.specs.Places.{place_count};
ghost use Rattle.vp_terms.specs.WellFormed.{is_good_cert};
ghost use Rattle.vp_terms.specs.declared.expr.Places.{Places};
ghost use Rattle.vp_terms.specs.declared.package.Cert.{Cert};
ghost use Rattle.vp_terms.specs.declared.package.CertTerm.{CertTerm};
ghost use Rattle.vp_poly.specs.Poly.{IsPoly};
ghost use Rattle.vp_poly.specs.Value.{Point};
ghost use Rattle.vp_logic.specs.declared.norm.Atom.{Atom};
ghost use Rattle.vp_logic.specs.Cases.{case_holds};
ghost use Rattle.vp_cert.specs.Bounds.{is_within_bounds};
ghost use Rattle.vp_cert.specs.Certificate.{LabelAtoms, Refutes, labelled};
ghost use Rattle.vp_cert.specs.Refusals.{Refuses};
ghost use Rattle.vp_cert.specs.declared.error.CertErr.{CertErr};
ghost use Rattle.vp_cert.specs.declared.error.CertErr.TheVariants.{Memory};

use vp_poly::laws::{
    canonical_polynomials_have_values, coefficients_combine, equal_trees_have_one_polynomial,
    points_have_assignments, polynomials_add_and_multiply, polynomials_are_unique,
    terms_are_polynomials,
};
use vp_terms::laws::{
    equal_trees_mean_the_same, equality_is_equivalence, variables_pass_tests,
    well_formed_parts_have_allowed_variables,
};

/// Where a certificate refutes a case within the bounds, no point meets all atoms of the case, and so
/// no assignment does.
pub fn refuted_cases_never_hold()
    ensures { (p : Places) → place_count p ≤ 32 → (atoms : List Atom) →
        All (λ (a : Atom). IsPoly a.poly) atoms → (places : List ℕ) (c : Cert) → IsCertificate c →
        IsTrue (is_good_cert p c) → Refutes p (labelled atoms places) c.terms →
        is_within_bounds p (labelled atoms places) c.terms ≡ true →
        (x : Point) → case_holds atoms x places ≡ false }
{
    variables_pass_tests();
    well_formed_parts_have_allowed_variables();
    canonical_polynomials_have_values();
    coefficients_combine();
    points_have_assignments();
    polynomials_add_and_multiply();
    polynomials_are_unique();
    terms_are_polynomials();
}

/// Certificates that differ in their boxes alone refute the same cases, are within the bounds alike,
/// and have the same refusals.
pub fn equal_trees_refute_alike()
    ensures refutes { (p : Places) (h : LabelAtoms) (ts us : List CertTerm) →
        map term_tree ts ≡ map term_tree us → Refutes p h ts → Refutes p h us }
    ensures bounds { (p : Places) (h : LabelAtoms) (ts us : List CertTerm) →
        map term_tree ts ≡ map term_tree us → is_within_bounds p h ts ≡ is_within_bounds p h us }
    ensures refusals { (p : Places) (h : LabelAtoms) (ts us : List CertTerm) (e : CertErr) →
        map term_tree ts ≡ map term_tree us → Refuses p h ts e → Refuses p h us e }
{
    equal_trees_have_one_polynomial();
    equal_trees_mean_the_same();
}

/// A certificate has one refusal that isn't for want of memory, and none where it refutes the case
/// within the bounds.
pub fn certificates_have_one_outcome()
    ensures refuted_alone { (p : Places) (h : LabelAtoms) (ts : List CertTerm) (e : CertErr) →
        Refutes p h ts → is_within_bounds p h ts ≡ true → Refuses p h ts e → e ≡ Memory }
    ensures refusals { (p : Places) (h : LabelAtoms) (ts : List CertTerm) (e f : CertErr) → e ≢ Memory →
        f ≢ Memory → Refuses p h ts e → Refuses p h ts f → e ≡ f }
{
    equality_is_equivalence();
}
