//! The factors of a certificate's terms, and their products.
ghost use Rattle.std.specs.Prelude.{◌≡◌, ◌<◌, ◌≤◌, ◌^◌, ◌++◌, ◌∷◌, [], All, IfOk, IsOk, IsTrue, OnOk, Err, List, map, pos, replicate, true, false};
ghost use Rattle.std.specs.List.{list_all};
ghost use Rattle.vp_terms.specs.Certificates.{has_whole_numbers, term_has_whole_numbers};
ghost use Rattle.vp_terms.specs.WellFormed.{in_certificate, is_good_expr, is_good_term};
ghost use Rattle.vp_logic.specs.declared.norm.Atom.{Atom};
ghost use Rattle.vp_poly.specs.Canonical.{own_weight};
ghost use Rattle.vp_poly.specs.Places.{places_for};
ghost use Rattle.vp_poly.specs.Poly.{IsPoly, IsWithin, Powers, coef, norm, only_at};
ghost use Rattle.vp_poly.specs.Times.{HasCoefficients};
ghost use Rattle.vp_poly.specs.Weights.{fits};
ghost use Rattle.vp_cert.specs.Bounds.{expressions_fit, product_size};
ghost use Rattle.vp_cert.specs.Capped.{IsWithinWeight, scaled_size};
ghost use Rattle.vp_cert.specs.Certificate.{TermFactor, expression_factor, factor_product, factors, label_factor, labelled, number_factor, polynomial_factor, squared};
ghost use Rattle.vp_cert.specs.Factors.{AreTermFactors, IsPlain, IsTermFactor};

use crate::labels::atom_of;
use std::alloc::{AllocError, Global};
use vp_logic::Atom;
use vp_poly::laws::coefficients_combine;
use vp_poly::{Mono, Poly, PolyErr, Scaled, Term, Weight, of_expr};
use vp_terms::laws::{
    variables_have_places, variables_pass_tests, well_formed_parts_have_allowed_variables,
};
use vp_terms::{CertTerm, Expr};
use vp_words::Counts;

/// The factors of a term: its number or its expression, its squares twice, and its labels'
/// polynomials.
pub(crate) fn factors_of(
    alloc: Global,
    term: &CertTerm,
    atoms: &[Atom],
    places: &[u32],
    counts: Counts,
    env: &[Scaled],
) -> Result<Vec<Scaled>, PolyErr>
    requires env { IsPlain counts env.now }
    requires small { All (λ (a : Atom). norm a.poly < 2 ^ 62) atoms.now }
    requires whole { IsTrue (term_has_whole_numbers term.now) }
    requires good { IsTrue (is_good_term (places_for counts) term.now) }
    ensures factors { IfOk result (λ v. AreTermFactors (factors (places_for counts)
        (labelled atoms.now places.now) term.now) v.items) }
    ensures within { IsOk result → expressions_fit (places_for counts) term.now ≡ true }
    ensures wide { result ≡ Err PolyErr.Wide → expressions_fit (places_for counts) term.now ≡ false }
{
    match term {
        CertTerm::Pos { times, labels } => {
            let mut all = number_alone(alloc, *times)?;
            let mut atoms = label_factors(alloc, labels.get(), atoms, places)?;
            all.append(&mut atoms)?;
            Ok(all)
        }
        CertTerm::Sum {
            times,
            squares,
            labels,
        } => {
            let mut all = number_alone(alloc, *times)?;
            let mut twice = squares_of(alloc, squares.get(), counts, env)?;
            let mut atoms = label_factors(alloc, labels.get(), atoms, places)?;
            all.append(&mut twice)?;
            all.append(&mut atoms)?;
            Ok(all)
        }
        CertTerm::Eq { label, times } => {
            let mut all = label_factors(alloc, &[*label], atoms, places)?;
            let times = expression_factor(alloc, times, counts, env)?;
            push_factor(&mut all, times)?;
            Ok(all)
        }
    }
}

fn push_factor(all: &mut Vec<Scaled>, factor: Scaled) -> Result<(), AllocError>
    ensures { OnOk result (all.new.items ≡ all.old.items ++ factor ∷ []) }
{
    all.push(factor)?;
    Ok(())
}

fn number_alone(alloc: Global, times: u64) -> Result<Vec<Scaled>, AllocError>
    ensures { IfOk result (λ v. AreTermFactors (number_factor times ∷ []) v.items) }
{
    let mut all = Vec::new(alloc);
    all.push(number_factor(alloc, times)?)?;
    Ok(all)
}

fn number_factor(alloc: Global, times: u64) -> Result<Scaled, AllocError>
    ensures { IfOk result (IsTermFactor (number_factor times)) }
{
    let term = constant_term(times);
    let poly = Poly::single(alloc, term)?;
    let weight = Weight::new(u128::from(times), 1, 0, 1);
    Ok(Scaled { poly, weight })
}

fn constant_term(value: u64) -> Term
    ensures { result ≡ record { mono = record { powers = replicate 32 0 }; coef = pos value } }
{
    Term {
        mono: Mono { powers: [0; 32] },
        coef: i128::from(value),
    }
}

fn label_factors(
    alloc: Global,
    labels: &[u32],
    atoms: &[Atom],
    places: &[u32],
) -> Result<Vec<Scaled>, AllocError>
    requires { All (λ (a : Atom). norm a.poly < 2 ^ 62) atoms.now }
    ensures { IfOk result (λ v. AreTermFactors (map (label_factor (labelled atoms.now places.now))
        labels.now) v.items) }
{
    let mut all = Vec::new(alloc);
    for label in labels {
        let factor = label_factor(alloc, *label, atoms, places)?;
        push_factor(&mut all, factor)?;
    }
    Ok(all)
}

fn label_factor(
    alloc: Global,
    label: u32,
    atoms: &[Atom],
    places: &[u32],
) -> Result<Scaled, AllocError>
    requires { All (λ (a : Atom). norm a.poly < 2 ^ 62) atoms.now }
    ensures { IfOk result (IsTermFactor (label_factor (labelled atoms.now places.now) label)) }
{
    match atom_of(atoms, places, label) {
        Some(atom) => polynomial_factor(alloc, &atom.poly),
        None => polynomial_factor(alloc, &Poly::zero(alloc)),
    }
}

fn polynomial_factor(alloc: Global, poly: &Poly) -> Result<Scaled, AllocError>
    requires { norm poly.now < 2 ^ 62 }
    ensures { IfOk result (IsTermFactor (polynomial_factor poly.now)) }
{
    let weight = Weight::new(norm_of(poly), 1, poly.degree(), poly.len());
    let poly = poly.copy(alloc)?;
    Ok(Scaled { poly, weight })
}

fn norm_of(poly: &Poly) -> u128
    ensures { result ≡ norm poly.now }
{
    poly.norm().unsigned_abs()
}

fn squares_of(
    alloc: Global,
    squares: &[Expr],
    counts: Counts,
    env: &[Scaled],
) -> Result<Vec<Scaled>, PolyErr>
    requires env { IsPlain counts env.now }
    requires whole { IsTrue (list_all has_whole_numbers squares.now) }
    requires good { IsTrue (list_all (is_good_expr in_certificate (places_for counts)) squares.now) }
    ensures factors { IfOk result (λ v. AreTermFactors (squared (map (expression_factor
        (places_for counts)) squares.now)) v.items) }
    ensures within { IsOk result →
        list_all (λ e. fits (own_weight (places_for counts) e)) squares.now ≡ true }
    ensures wide { result ≡ Err PolyErr.Wide →
        list_all (λ e. fits (own_weight (places_for counts) e)) squares.now ≡ false }
{
    let mut all = Vec::new(alloc);
    for square in squares {
        let once = expression_factor(alloc, square, counts, env)?;
        let again = once.copy(alloc)?;
        push_factor(&mut all, once)?;
        push_factor(&mut all, again)?;
    }
    Ok(all)
}

fn expression_factor(
    alloc: Global,
    e: &Expr,
    counts: Counts,
    env: &[Scaled],
) -> Result<Scaled, PolyErr>
    requires env { IsPlain counts env.now }
    requires whole { IsTrue (has_whole_numbers e.now) }
    requires good { IsTrue (is_good_expr in_certificate (places_for counts) e.now) }
    ensures factor { IfOk result (IsTermFactor (expression_factor (places_for counts) e.now)) }
    ensures within { IsOk result → fits (own_weight (places_for counts) e.now) ≡ true }
    ensures wide { result ≡ Err PolyErr.Wide → fits (own_weight (places_for counts) e.now) ≡ false }
{
    variables_have_places();
    variables_pass_tests();
    well_formed_parts_have_allowed_variables();
    let scaled = of_expr(alloc, e, counts, env)?;
    Ok(scaled)
}

/// The product of factors that are not too large.
pub(crate) fn multiply(alloc: Global, factors: &[Scaled]) -> Result<Poly, AllocError>
    requires within { All IsWithinWeight factors.now }
    requires norm { (product_size (map scaled_size factors.now)).norm < 2 ^ 126 }
    requires terms { (product_size (map scaled_size factors.now)).terms ≤ 65536 }
    requires degree { (product_size (map scaled_size factors.now)).degree ≤ 48 }
    ensures canonical { IfOk result IsPoly }
    ensures sizes { IfOk result (λ p. IsWithin p (product_size (map scaled_size factors.now)).norm
        (product_size (map scaled_size factors.now)).degree
        (product_size (map scaled_size factors.now)).terms) }
    ensures coefficients { (fs : List TermFactor) → AreTermFactors fs factors.now →
        IfOk result (λ p. HasCoefficients 1 p (factor_product fs)) }
{
    coefficients_combine();
    let mut product = one(alloc)?;
    for factor in factors {
        product = factor.poly.mul(alloc, &product)?;
    }
    Ok(product)
}

fn one(alloc: Global) -> Result<Poly, AllocError>
    ensures canonical { IfOk result IsPoly }
    ensures sizes { IfOk result (λ p. IsWithin p 1 0 1) }
    ensures coefficients { IfOk result (λ p. (m : Powers) →
        coef p m ≡ only_at (replicate 32 0) m (pos 1)) }
{
    let term = Term {
        mono: Mono { powers: [0; 32] },
        coef: 1,
    };
    Poly::single(alloc, term)
}
