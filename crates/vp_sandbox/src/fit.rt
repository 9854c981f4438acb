//! When a sandbox fits. The rules stand in `docs/sandbox.md`.
ghost use Rattle.std.specs.Prelude.{◌≡◌, ◌<◌, ◌≤◌, ◌^◌, ◌↔◌, IsTrue, length, map, sum};
ghost use Rattle.vp_words.specs.Record.{IsValid};
ghost use Rattle.vp_poly.specs.Poly.{degree};
ghost use Rattle.vp_logic.specs.Tree.{tree, trees};
ghost use Rattle.vp_poly.specs.Places.{HasOnly, HaveOnly};
ghost use Rattle.vp_sandbox.specs.Fits.{EachFits, Fits, PolyFits, PolysFit, TreeFits, TreesFit, in_init};
ghost use Rattle.vp_sandbox.specs.Scope.{MonitorsFit, allows};

use crate::Sandbox;
use crate::boxes::{first_next_control, first_next_state, tau_place};
use vp_logic::{Norm, Norms};
use vp_poly::Poly;
use vp_words::Counts;

// The norm of each polynomial is below this.
const NORM_LIMIT: i128 = 1 << 62;

// The degree of each polynomial is at most this.
const MOST_DEGREE: u32 = 12;

/// The parts of a sandbox. The fallback has the variables of `Init`.
#[derive(Clone, Copy)]
enum Part {
    Init,
    Ctrl,
    Plant,
}

/// A part of a sandbox with these counts.
#[derive(Clone, Copy)]
struct Scope {
    counts: Counts,
    part: Part,
}

impl Sandbox {
    /// Whether records can be answered by this sandbox.
    pub fn fits(&self) -> bool
        ensures { IsTrue result ↔ Fits self.now }
    {
        self.monitors_fit() && fallback_fits(self.counts, self.fallback.get())
    }

    fn monitors_fit(&self) -> bool
        ensures { IsTrue result ↔ MonitorsFit self.now }
    {
        let counts = self.counts;
        if !counts.is_valid() {
            return false;
        }
        if !conjuncts_fit(
            Scope {
                counts,
                part: Part::Init,
            },
            self.init.get(),
        ) {
            return false;
        }
        if !form_fits(
            Scope {
                counts,
                part: Part::Ctrl,
            },
            &self.ctrl,
        ) {
            return false;
        }
        conjuncts_fit(
            Scope {
                counts,
                part: Part::Plant,
            },
            self.plant.get(),
        )
    }
}

// Whether conjuncts can be numbered.
fn are_few(norms: &[Norm]) -> bool
    ensures { IsTrue result ↔ (length norms.now < 2 ^ 32) }
{
    norms.len() < 1 << 32
}

// Whether these conjuncts can be numbered, and each fits.
fn conjuncts_fit(scope: Scope, norms: &[Norm]) -> bool
    ensures { IsTrue result ↔ (length norms.now < 2 ^ 32) × EachFits (allows scope) (map tree norms.now) }
{
    are_few(norms) && forms_fit(scope, norms)
}

// Whether there is a polynomial for each control, and each fits.
fn fallback_fits(counts: Counts, polys: &[Poly]) -> bool
    ensures { IsTrue result ↔ (length polys.now ≡ counts.controls) × PolysFit (in_init counts) polys.now }
{
    let part = Part::Init;
    polys.len() == counts.controls as usize && polys_fit(Scope { counts, part }, polys)
}

#[tactic(auto, using(crate::proofs::Passing::passing))]
fn forms_fit(scope: Scope, norms: &[Norm]) -> bool
    ensures { IsTrue result ↔ EachFits (allows scope) (map tree norms.now) }
{
    for norm in norms {
        if !form_fits(scope, norm) {
            return false;
        }
    }
    true
}

#[cycle(fits)]
fn form_fits(scope: Scope, norm: &Norm) -> bool
    ensures { IsTrue result ↔ TreeFits (allows scope) (tree norm.now) }
{
    match norm {
        Norm::Atom(atom) => poly_fits(scope, &atom.poly),
        Norm::And(members) | Norm::Or(members) => members_fit(scope, members),
    }
}

#[cycle(fits)]
fn members_fit(scope: Scope, norms: &Norms) -> bool
    ensures { IsTrue result ↔ TreesFit (allows scope) (trees norms.now) }
{
    match norms {
        Norms::End => true,
        Norms::More(first, rest) => form_fits(scope, first) && members_fit(scope, rest),
    }
}

#[tactic(auto, using(crate::proofs::Passing::passing))]
fn polys_fit(scope: Scope, polys: &[Poly]) -> bool
    ensures { IsTrue result ↔ PolysFit (allows scope) polys.now }
{
    for poly in polys {
        if !poly_fits(scope, poly) {
            return false;
        }
    }
    true
}

fn poly_fits(scope: Scope, poly: &Poly) -> bool
    ensures { IsTrue result ↔ PolyFits (allows scope) poly.now }
{
    poly.norm() < NORM_LIMIT && poly.degree() <= MOST_DEGREE && have_only(scope, poly)
}

// Whether each term has the variables of this part alone.
#[tactic(auto, using(crate::proofs::Passing::passing))]
fn have_only(scope: Scope, poly: &Poly) -> bool
    ensures { IsTrue result ↔ HaveOnly (allows scope) poly.now }
{
    for k in 0..poly.len() {
        if !has_only(scope, &poly.term(k).mono.powers) {
            return false;
        }
    }
    true
}

// Whether the exponents of all other places are 0.
#[tactic(auto, using(crate::proofs::Passing::passing))]
fn has_only(scope: Scope, powers: &[u8]) -> bool
    ensures { IsTrue result ↔ HasOnly (allows scope) powers.now }
{
    for (place, power) in powers.iter().enumerate() {
        if *power != 0 && !scope.allows(place) {
            return false;
        }
    }
    true
}

impl Scope {
    // Whether the variable with this place may stand here.
    fn allows(self, place: usize) -> bool
        ensures { result ≡ allows self place }
    {
        let next_controls = first_next_control(self.counts);
        let tau = tau_place(self.counts);
        let now = place < first_next_state(self.counts);
        match self.part {
            Part::Init => now,
            Part::Ctrl => now || (next_controls <= place && place < tau),
            Part::Plant => place < next_controls || place == tau,
        }
    }
}
