//! What a well formed package is, as plain tests.
ghost use Rattle.std.specs.Prelude.{◌≡◌, ◌≢◌, ◌+◌, ◌-◌, ◌^◌, ◌<◌, ◌≤◌, ◌↔◌, ℕ, ◌++◌, IsTrue, length, min, AllPairs, slice_get, Some, MatchOption};
ghost use Rattle.std.specs.List.{list_all};
ghost use Rattle.vp_terms.specs.Places.{place_count};
ghost use Rattle.vp_terms.specs.WellFormed.{AreGoodNames, IsNewName, IsGoodCondition, IsGoodPlant, IsWellFormed, all_names, comparisons, in_certificate, in_domain, in_model, in_slack, in_time, is_allowed, is_good_cert, is_good_expr, is_good_formula, is_good_prog, is_good_slack, is_good_term, places_of, prog_comparisons};

use crate::{Cert, CertTerm, Expr, Formula, Names, Package, Places, Plant, Prog, Slack, Var};

/// Which kinds of variables may stand somewhere, beside the parameters.
#[derive(Clone, Copy, Debug, PartialEq, Eq)]
pub struct Kinds {
    /// The states.
    pub states: bool,
    /// The controls in force.
    pub controls: bool,
    /// The next states and the next controls.
    pub next: bool,
    /// The time that a round takes.
    pub tau: bool,
}

impl Kinds {
    /// In the formulas of a model, its controller, its rates and its fallback.
    pub const MODEL: Kinds = Kinds {
        states: true,
        controls: true,
        next: false,
        tau: false,
    };

    /// In the bounds of the time: parameters alone.
    pub const TIME: Kinds = Kinds {
        states: false,
        controls: false,
        next: false,
        tau: false,
    };

    /// In the slack.
    pub const SLACK: Kinds = Kinds {
        states: false,
        controls: true,
        next: false,
        tau: true,
    };

    /// In the domain.
    pub const DOMAIN: Kinds = Kinds {
        states: true,
        controls: true,
        next: false,
        tau: true,
    };

    /// In a certificate: all variables.
    pub const CERTIFICATE: Kinds = Kinds {
        states: true,
        controls: true,
        next: true,
        tau: true,
    };
}

// The greatest number of comparisons and `True`s of a formula or of the controller.
const MOST_COMPARISONS: u64 = 2048;

impl Var {
    /// Whether the variable is one of the model's and of a kind that may stand there.
    pub fn is_allowed(self, kinds: Kinds, places: Places) -> bool
        ensures { result ≡ is_allowed kinds places self }
    {
        match self {
            Var::Param(i) => i < places.params,
            Var::State(i) => kinds.states && i < places.states,
            Var::Control(i) => kinds.controls && i < places.controls,
            Var::NextState(i) => kinds.next && i < places.states,
            Var::NextControl(i) => kinds.next && i < places.controls,
            Var::Tau => kinds.tau,
        }
    }
}

impl Expr {
    /// Whether each variable may stand there and each exponent is at most 12.
    pub fn is_well_formed(&self, kinds: Kinds, places: Places) -> bool
        ensures { result ≡ is_good_expr kinds places self.now }
    {
        match self {
            Expr::Num(_) => true,
            Expr::Var(variable) => variable.is_allowed(kinds, places),
            Expr::Add(l, r) | Expr::Sub(l, r) | Expr::Mul(l, r) => {
                l.is_well_formed(kinds, places) && r.is_well_formed(kinds, places)
            }
            Expr::Pow(base, exponent) => base.is_well_formed(kinds, places) && *exponent <= 12,
        }
    }
}

impl Formula {
    /// Whether each expression is well formed.
    pub fn is_well_formed(&self, kinds: Kinds, places: Places) -> bool
        ensures { result ≡ is_good_formula kinds places self.now }
    {
        match self {
            Formula::True => true,
            Formula::Cmp(_, l, r) => {
                l.is_well_formed(kinds, places) && r.is_well_formed(kinds, places)
            }
            Formula::And(l, r) | Formula::Or(l, r) => {
                l.is_well_formed(kinds, places) && r.is_well_formed(kinds, places)
            }
            Formula::Not(inner) => inner.is_well_formed(kinds, places),
        }
    }

    /// The number of comparisons and `True`s, at most 2^64 - 1.
    pub fn comparisons(&self) -> u64
        ensures { result ≡ min (comparisons self.now) (2 ^ 64 - 1) }
    {
        match self {
            Formula::True | Formula::Cmp(_, _, _) => 1,
            Formula::And(l, r) | Formula::Or(l, r) => l
                .comparisons()
                .saturating_add(r.comparisons()),
            Formula::Not(inner) => inner.comparisons(),
        }
    }
}

impl Prog {
    /// Whether each control is one of the model's and each expression and formula is well formed.
    pub fn is_well_formed(&self, places: Places) -> bool
        ensures { result ≡ is_good_prog places self.now }
    {
        match self {
            Prog::Skip => true,
            Prog::Assign(control, expr) => {
                *control < places.controls && expr.is_well_formed(Kinds::MODEL, places)
            }
            Prog::Any(control) => *control < places.controls,
            Prog::Test(formula) => formula.is_well_formed(Kinds::MODEL, places),
            Prog::Choice(l, r) | Prog::Seq(l, r) => {
                l.is_well_formed(places) && r.is_well_formed(places)
            }
            Prog::If(formula, l, r) => {
                formula.is_well_formed(Kinds::MODEL, places)
                    && l.is_well_formed(places)
                    && r.is_well_formed(places)
            }
        }
    }

    /// The number of comparisons and `True`s of all its formulas, at most 2^64 - 1.
    pub fn comparisons(&self) -> u64
        ensures { result ≡ min (prog_comparisons self.now) (2 ^ 64 - 1) }
    {
        match self {
            Prog::Skip | Prog::Assign(_, _) | Prog::Any(_) => 0,
            Prog::Test(formula) => formula.comparisons(),
            Prog::Choice(l, r) | Prog::Seq(l, r) => l.comparisons().saturating_add(r.comparisons()),
            Prog::If(formula, l, r) => {
                let parts = l.comparisons().saturating_add(r.comparisons());
                formula.comparisons().saturating_add(parts)
            }
        }
    }
}

impl Slack {
    fn is_well_formed(&self, places: Places) -> bool
        ensures { result ≡ is_good_slack places self.now }
    {
        self.low.is_well_formed(Kinds::SLACK, places)
            && self.high.is_well_formed(Kinds::SLACK, places)
    }
}

fn are_well_formed(exprs: &[Expr], kinds: Kinds, places: Places) -> bool
    ensures { result ≡ list_all (is_good_expr kinds places) exprs.now }
{
    exprs.iter().all(|expr| expr.is_well_formed(kinds, places))
}

impl CertTerm {
    fn is_well_formed(&self, places: Places) -> bool
        ensures { result ≡ is_good_term places self.now }
    {
        match self {
            CertTerm::Pos { .. } => true,
            CertTerm::Sum { squares, .. } => {
                are_well_formed(squares.get(), Kinds::CERTIFICATE, places)
            }
            CertTerm::Eq { times, .. } => times.is_well_formed(Kinds::CERTIFICATE, places),
        }
    }
}

impl Cert {
    fn is_well_formed(&self, places: Places) -> bool
        ensures { result ≡ is_good_cert places self.now }
    {
        self.terms
            .get()
            .iter()
            .all(|term| term.is_well_formed(places))
    }
}

// Whether the formula is one of the model's and not too large.
fn is_condition(formula: &Formula, places: Places) -> bool
    ensures { IsTrue result ↔ IsGoodCondition places formula.now }
{
    formula.is_well_formed(Kinds::MODEL, places) && formula.comparisons() <= MOST_COMPARISONS
}

// Whether the formula is a domain and not too large.
fn is_domain(formula: &Formula, places: Places) -> bool
    ensures { IsTrue result ↔
        (IsTrue (is_good_formula in_domain places formula.now) × (comparisons formula.now ≤ 2048)) }
{
    formula.is_well_formed(Kinds::DOMAIN, places) && formula.comparisons() <= MOST_COMPARISONS
}

// Whether there is one well formed expression for each of `count` variables.
fn are_for_each(exprs: &[Expr], count: u32, places: Places) -> bool
    ensures { IsTrue result ↔
        (IsTrue (list_all (is_good_expr in_model places) exprs.now) × (length exprs.now ≡ count)) }
{
    exprs.len() == count as usize && are_well_formed(exprs, Kinds::MODEL, places)
}

fn are_slacks(slacks: &[Slack], places: Places) -> bool
    ensures { result ≡ list_all (is_good_slack places) slacks.now }
{
    slacks.iter().all(|slack| slack.is_well_formed(places))
}

// Whether there is well formed slack for each state.
fn is_each_slack(slacks: &[Slack], places: Places) -> bool
    ensures { IsTrue result ↔
        (IsTrue (list_all (is_good_slack places) slacks.now) × (length slacks.now ≡ places.states)) }
{
    slacks.len() == places.states as usize && are_slacks(slacks, places)
}

impl Plant {
    fn is_well_formed(&self, places: Places) -> bool
        ensures { IsTrue result ↔ IsGoodPlant places self.now }
    {
        self.low.is_well_formed(Kinds::TIME, places)
            && self.high.is_well_formed(Kinds::TIME, places)
            && are_for_each(self.rates.get(), places.states, places)
            && is_each_slack(self.slack.get(), places)
            && is_domain(&self.domain, places)
    }
}

impl Names {
    // How many names there are.
    fn count(&self) -> u64
        requires { length (all_names self.now) < 2 ^ 64 }
        ensures { result ≡ length (all_names self.now) }
    {
        let params = self.params.get().len() as u64;
        params + self.states.get().len() as u64 + self.controls.get().len() as u64
    }

    // The name number i, from 0.
    fn name(&self, i: u64) -> &str
        requires { i < length (all_names self.now) }
        ensures { slice_get (all_names self.now) i ≡ Some result.now }
    {
        let params = self.params.get();
        let states = self.states.get();
        let controls = self.controls.get();
        let first_state = params.len() as u64;
        let first_control = first_state + states.len() as u64;
        if i < first_state {
            params[i as usize].as_str()
        } else if i < first_control {
            states[(i - first_state) as usize].as_str()
        } else {
            controls[(i - first_control) as usize].as_str()
        }
    }
}

// Whether the name number j is none of those before it.
#[tactic(auto, using(crate::proofs::Naming::naming))]
fn is_new(names: &Names, j: u64) -> bool
    requires { j < length (all_names names.now) }
    ensures { IsTrue result ↔ IsNewName (all_names names.now) j }
{
    for i in 0..j {
        if names.name(i) == names.name(j) {
            return false;
        }
    }
    true
}

// Whether no name stands twice.
#[tactic(auto, using(crate::proofs::Naming::naming))]
fn are_different(names: &Names) -> bool
    requires { length (all_names names.now) < 2 ^ 64 }
    ensures { IsTrue result ↔ AllPairs (λ a b. a ≢ b) (all_names names.now) }
{
    for j in 0..names.count() {
        if !is_new(names, j) {
            return false;
        }
    }
    true
}

impl Names {
    /// How many parameters, states and controls the names name.
    pub fn places(&self) -> Places
        requires { place_count (places_of self.now) < 2 ^ 32 }
        ensures { result ≡ places_of self.now }
    {
        Places {
            params: self.params.get().len() as u32,
            states: self.states.get().len() as u32,
            controls: self.controls.get().len() as u32,
        }
    }
}

impl Places {
    /// How many places there are: one for each variable of the model, next ones and `tau` among them.
    pub fn count(self) -> u32
        requires { place_count self < 2 ^ 32 }
        ensures { result ≡ place_count self }
    {
        self.params + 2 * self.states + 2 * self.controls + 1
    }
}

impl Names {
    // How many variables of each kind the names name, if there are at most 32 places.
    fn few_places(&self) -> Option<Places>
        ensures { MatchOption result (32 < place_count (places_of self.now)) (λ p.
            (p ≡ places_of self.now) × (place_count p ≤ 32)) }
    {
        let params = self.params.get().len();
        let states = self.states.get().len();
        let controls = self.controls.get().len();
        if params > 32
            || states > 16
            || controls > 16
            || params + 2 * states + 2 * controls + 1 > 32
        {
            return None;
        }
        Some(Places {
            params: params as u32,
            states: states as u32,
            controls: controls as u32,
        })
    }
}

impl Names {
    // The places of the variables that the names name, where the names are good.
    fn good_places(&self) -> Option<Places>
        ensures { MatchOption result (¬ AreGoodNames self.now) (λ p.
            (p ≡ places_of self.now) × AreGoodNames self.now) }
    {
        let places = self.few_places()?;
        if places.states == 0 || places.controls == 0 || !are_different(self) {
            return None;
        }
        Some(places)
    }
}

impl Package {
    /// Whether the package is well formed.
    pub fn is_well_formed(&self) -> bool
        ensures { IsTrue result ↔ IsWellFormed self.now }
    {
        let Some(places) = self.names.good_places() else {
            return false;
        };
        is_condition(&self.init, places)
            && is_condition(&self.inv, places)
            && is_condition(&self.safe, places)
            && self.ctrl.is_well_formed(places)
            && self.ctrl.comparisons() <= MOST_COMPARISONS
            && self.plant.is_well_formed(places)
            && are_for_each(self.fallback.get(), places.controls, places)
            && are_certs(self.certs.get(), places)
    }
}

fn are_certs(certs: &[Cert], places: Places) -> bool
    ensures { result ≡ list_all (is_good_cert places) certs.now }
{
    certs.iter().all(|cert| cert.is_well_formed(places))
}
