//! Whether a certificate refutes a case.
ghost use Rattle.std.specs.Prelude.{◌≡◌, ◌≢◌, ◌<◌, ◌^◌, ◌&&◌, All, IfErr, IfOk, IfSome, IsOk, IsTrue, Err, OnOk, nat_le, nat_lt, length, pos, slice_get, true, false};
ghost use Rattle.std.specs.List.{list_all};
ghost use Rattle.vp_words.specs.Record.{IsValid};
ghost use Rattle.vp_terms.specs.Certificates.{IsCertificate, term_has_whole_numbers};
ghost use Rattle.vp_terms.specs.WellFormed.{is_good_cert, is_good_term};
ghost use Rattle.vp_logic.specs.declared.norm.Atom.{Atom};
ghost use Rattle.vp_logic.specs.Cases.{case_holds};
ghost use Rattle.vp_poly.specs.Places.{places_for};
ghost use Rattle.vp_poly.specs.Poly.{IsPoly, coef, norm};
ghost use Rattle.vp_poly.specs.Times.{HasCoefficients};
ghost use Rattle.vp_poly.specs.Value.{Point};
ghost use Rattle.vp_cert.specs.Bounds.{is_within_bounds};
ghost use Rattle.vp_cert.specs.Certificate.{Refutes, labelled, labels_fit, total_coefficients};
ghost use Rattle.vp_cert.specs.Refusals.{Refuses};

use crate::CertErr;
use crate::factor::{factors_of, multiply};
use crate::labels::{begins_strict, labels_fit};
use crate::laws::refuted_cases_never_hold;
use crate::size::product_size;
use std::alloc::Global;
use vp_logic::Atom;
use vp_poly::laws::{coefficients_combine, polynomials_are_ordered};
use vp_poly::{Poly, PolyErr, Term, plain};
use vp_terms::{Cert, CertTerm};
use vp_words::Counts;

/// Whether the certificate refutes the case with these places in the list of atoms: its labels fit,
/// its first term is strict, and its terms add to zero. Then no point meets all atoms of the case.
/// The rules and the bounds stand in `docs/certificates.md`.
pub fn refutes(
    alloc: Global,
    atoms: &[Atom],
    places: &[u32],
    cert: &Cert,
    counts: Counts,
) -> Result<(), CertErr>
    requires counts { IsValid counts }
    requires places { All (λ k. k < length atoms.now) places.now }
    requires polynomials { All (λ (a : Atom). IsPoly a.poly) atoms.now }
    requires small { All (λ (a : Atom). norm a.poly < 2 ^ 62) atoms.now }
    requires form { IsCertificate cert.now }
    requires good { IsTrue (is_good_cert (places_for counts) cert.now) }
    ensures refutes { OnOk result (Refutes (places_for counts) (labelled atoms.now places.now)
        cert.now.terms) }
    ensures within { OnOk result (is_within_bounds (places_for counts)
        (labelled atoms.now places.now) cert.now.terms ≡ true) }
    ensures refused { IfErr result (Refuses (places_for counts) (labelled atoms.now places.now)
        cert.now.terms) }
    ensures sound { OnOk result ((x : Point) → case_holds atoms.now x places.now ≡ false) }
{
    let terms = cert.terms.get();
    if !all_labels_fit(atoms, places, terms) {
        return Err(CertErr::Label);
    }
    if !begins_strict(atoms, places, terms) {
        return Err(CertErr::NotStrict);
    }
    let sum = sum_of_terms(alloc, terms, atoms, places, counts)?;
    match first_term(&sum) {
        Some(term) => {
            polynomials_are_ordered();
            Err(left_at(term))
        }
        None => {
            refuted_cases_never_hold();
            Ok(())
        }
    }
}

// The first term of a polynomial, unless it is zero.
fn first_term(sum: &Poly) -> Option<Term>
    ensures first { result ≡ slice_get sum.now 0 }
    ensures nonzero { IfSome result (λ t. t.coef ≢ pos 0) }
    ensures coefficient { IfSome result (λ t. coef sum.now t.mono.powers ≡ t.coef) }
{
    if sum.is_zero() {
        return None;
    }
    Some(sum.term(0))
}

fn left_at(term: Term) -> CertErr
    ensures { result ≡ CertErr.NotZero term.mono term.coef }
{
    CertErr::NotZero {
        monomial: term.mono,
        coefficient: term.coef,
    }
}

fn all_labels_fit(atoms: &[Atom], places: &[u32], terms: &[CertTerm]) -> bool
    ensures { result ≡ list_all (labels_fit (labelled atoms.now places.now)) terms.now }
{
    terms.iter().all(|term| labels_fit(atoms, places, term))
}

// The sum of all terms. The bounds on a term are tested before its factors are multiplied.
fn sum_of_terms(
    alloc: Global,
    terms: &[CertTerm],
    atoms: &[Atom],
    places: &[u32],
    counts: Counts,
) -> Result<Poly, PolyErr>
    requires counts { IsValid counts }
    requires small { All (λ (a : Atom). norm a.poly < 2 ^ 62) atoms.now }
    requires whole { IsTrue (list_all term_has_whole_numbers terms.now) }
    requires good { IsTrue (list_all (is_good_term (places_for counts)) terms.now) }
    ensures canonical { IfOk result IsPoly }
    ensures within { IsOk result →
        is_within_bounds (places_for counts) (labelled atoms.now places.now) terms.now ≡ true }
    ensures wide { result ≡ Err PolyErr.Wide →
        is_within_bounds (places_for counts) (labelled atoms.now places.now) terms.now ≡ false }
    ensures coefficients { IfOk result (λ p. HasCoefficients 1 p (total_coefficients
        (places_for counts) (labelled atoms.now places.now) terms.now)) }
{
    coefficients_combine();
    let env = plain(alloc, counts)?;
    let mut norms: u128 = 0;
    let mut count: u128 = 0;
    let mut sum = Poly::zero(alloc);
    for term in terms {
        let factors = factors_of(alloc, term, atoms, places, counts, &env)?;
        let size = product_size(&factors);
        norms = norms.saturating_add(size.norm);
        count = count.saturating_add(size.terms);
        if !are_small(norms, count, size.degree) {
            return Err(PolyErr::Wide);
        }
        let product = multiply(alloc, &factors)?;
        sum = product.add(alloc, &sum)?;
    }
    Ok(sum)
}

// Whether norms, numbers of terms and a degree pass no bound.
fn are_small(norms: u128, count: u128, degree: u128) -> bool
    ensures { result ≡ (nat_lt norms (2 ^ 126) && nat_le count 65536 && nat_le degree 48) }
{
    norms < 1 << 126 && count <= 65536 && degree <= 48
}
