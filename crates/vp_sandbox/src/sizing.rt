//! The sizes that bound the code of a sandbox. The table stands in `docs/sandbox.md`.
ghost use Rattle.std.specs.Prelude.{◌≡◌, ◌+◌, ◌*◌, map, sum_by};
ghost use Rattle.vp_words.specs.Record.{place_count};
ghost use Rattle.vp_logic.specs.Tree.{tree, trees};
ghost use Rattle.vp_sandbox.specs.Sizes.{cell_bound, degrees, form_degrees, form_size, instruction_bound, members_degrees, members_size, poly_size, power_size, saturated, term_size};

use crate::{Sandbox, Sizes};
use vp_logic::{Norm, Norms};
use vp_poly::{Poly, Term};
use vp_words::Counts;

/// The sizes of a sandbox, whether it fits or not.
#[tactic(auto, using(crate::proofs::Saturating::saturating))]
pub fn sizes(s: &Sandbox) -> Sizes
    ensures instrs { result.instrs ≡ saturated (instruction_bound s.now) }
    ensures cells { result.cells ≡ saturated (cell_bound s.now) }
{
    Sizes {
        instrs: instructions(s),
        cells: cells(s),
    }
}

#[tactic(auto, using(crate::proofs::Saturating::saturating))]
fn instructions(s: &Sandbox) -> u64
    ensures { result ≡ saturated (instruction_bound s.now) }
{
    fixed_size(s.counts)
        .saturating_add(size_of_forms(s.init.get()))
        .saturating_add(size_of_forms(s.plant.get()))
        .saturating_add(size_of_form(&s.ctrl))
        .saturating_add(size_of_polys(s.fallback.get()))
}

#[tactic(auto, using(crate::proofs::Saturating::saturating))]
fn cells(s: &Sandbox) -> u64
    ensures { result ≡ saturated (cell_bound s.now) }
{
    let all = degrees_of_forms(s.init.get())
        .saturating_add(degrees_of_forms(s.plant.get()))
        .saturating_add(degrees_of_form(&s.ctrl))
        .saturating_add(degrees_of_polys(s.fallback.get()));
    all.saturating_mul(2).saturating_add(512)
}

// What each sandbox with these counts has.
fn fixed_size(counts: Counts) -> u64
    ensures { result ≡ 64 + 8 * place_count counts }
{
    let places = u64::from(counts.params)
        + 2 * u64::from(counts.states)
        + 2 * u64::from(counts.controls)
        + 1;
    64 + 8 * places
}

// Conjuncts of a monitor.
#[tactic(auto, using(crate::proofs::Saturating::saturating))]
fn size_of_forms(norms: &[Norm]) -> u64
    ensures { result ≡ saturated (sum_by (λ t. form_size t + 8) (map tree norms.now)) }
{
    let mut size: u64 = 0;
    for norm in norms {
        size = size.saturating_add(size_of_form(norm).saturating_add(8));
    }
    size
}

// Polynomials of the fallback.
#[tactic(auto, using(crate::proofs::Saturating::saturating))]
fn size_of_polys(polys: &[Poly]) -> u64
    ensures { result ≡ saturated (sum_by (λ p. poly_size p + 6) polys.now) }
{
    let mut size: u64 = 0;
    for poly in polys {
        size = size.saturating_add(size_of_poly(poly).saturating_add(6));
    }
    size
}

#[cycle(size)]
#[tactic(auto, using(crate::proofs::Saturating::saturating))]
fn size_of_form(norm: &Norm) -> u64
    ensures { result ≡ saturated (form_size (tree norm.now)) }
{
    match norm {
        Norm::Atom(atom) => size_of_poly(&atom.poly).saturating_add(10),
        Norm::And(members) | Norm::Or(members) => size_of_members(members).saturating_add(2),
    }
}

#[cycle(size)]
#[tactic(auto, using(crate::proofs::Saturating::saturating))]
fn size_of_members(norms: &Norms) -> u64
    ensures { result ≡ saturated (members_size (trees norms.now)) }
{
    match norms {
        Norms::End => 0,
        Norms::More(first, rest) => {
            let size = size_of_form(first).saturating_add(2);
            size.saturating_add(size_of_members(rest))
        }
    }
}

#[tactic(auto, using(crate::proofs::Saturating::saturating))]
fn size_of_poly(poly: &Poly) -> u64
    ensures { result ≡ saturated (poly_size poly.now) }
{
    let mut size: u64 = 2;
    for k in 0..poly.len() {
        size = size.saturating_add(size_of_term(&poly.term(k)).saturating_add(2));
    }
    size
}

#[tactic(auto, using(crate::proofs::Saturating::saturating))]
fn size_of_term(term: &Term) -> u64
    ensures { result ≡ saturated (term_size term.now) }
{
    size_of_powers(&term.mono.powers).saturating_add(2)
}

#[tactic(auto, using(crate::proofs::Saturating::saturating))]
fn size_of_powers(powers: &[u8]) -> u64
    ensures { result ≡ saturated (sum_by power_size powers.now) }
{
    let mut size: u64 = 0;
    for power in powers {
        size = size.saturating_add(size_of_power(*power));
    }
    size
}

fn size_of_power(power: u8) -> u64
    ensures { result ≡ power_size power }
{
    match power {
        0 => 0,
        1 => 16,
        _ => 2 * u64::from(power) + 32,
    }
}

// The degrees of all terms of these forms.
#[tactic(auto, using(crate::proofs::Saturating::saturating))]
fn degrees_of_forms(norms: &[Norm]) -> u64
    ensures { result ≡ saturated (sum_by form_degrees (map tree norms.now)) }
{
    let mut all: u64 = 0;
    for norm in norms {
        all = all.saturating_add(degrees_of_form(norm));
    }
    all
}

#[tactic(auto, using(crate::proofs::Saturating::saturating))]
fn degrees_of_polys(polys: &[Poly]) -> u64
    ensures { result ≡ saturated (sum_by degrees polys.now) }
{
    let mut all: u64 = 0;
    for poly in polys {
        all = all.saturating_add(degrees_of_poly(poly));
    }
    all
}

#[cycle(degrees)]
#[tactic(auto, using(crate::proofs::Saturating::saturating))]
fn degrees_of_form(norm: &Norm) -> u64
    ensures { result ≡ saturated (form_degrees (tree norm.now)) }
{
    match norm {
        Norm::Atom(atom) => degrees_of_poly(&atom.poly),
        Norm::And(members) | Norm::Or(members) => degrees_of_members(members),
    }
}

#[cycle(degrees)]
#[tactic(auto, using(crate::proofs::Saturating::saturating))]
fn degrees_of_members(norms: &Norms) -> u64
    ensures { result ≡ saturated (members_degrees (trees norms.now)) }
{
    match norms {
        Norms::End => 0,
        Norms::More(first, rest) => degrees_of_form(first).saturating_add(degrees_of_members(rest)),
    }
}

#[tactic(auto, using(crate::proofs::Saturating::saturating))]
fn degrees_of_poly(poly: &Poly) -> u64
    ensures { result ≡ saturated (degrees poly.now) }
{
    let mut all: u64 = 0;
    for k in 0..poly.len() {
        all = all.saturating_add(u64::from(poly.term(k).mono.degree()));
    }
    all
}
