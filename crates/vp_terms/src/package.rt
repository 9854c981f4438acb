//! A package: a model with its invariant, fallback and certificates.
use crate::{Expr, Formula, Items, NameList, Prog};

/// How far a new state may lie from the exact flow: at least `low` and at most `high` above it.
#[derive(Debug, Drop)]
pub struct Slack {
    /// The least difference, new state less flow.
    pub low: Expr,
    /// The greatest difference.
    pub high: Expr,
}

/// The plant: a round takes a time from `low` to `high`.
#[derive(Debug, Drop)]
pub struct Plant {
    /// The least time of a round.
    pub low: Expr,
    /// The greatest time of a round.
    pub high: Expr,
    /// The rate of change of each state.
    pub rates: Items<Expr>,
    /// The slack of each state.
    pub slack: Items<Slack>,
    /// What holds at each sensing.
    pub domain: Formula,
}

/// The four lists of cases that certificates refute.
#[derive(Clone, Copy, Debug, PartialEq, Eq)]
pub enum Part {
    /// `cert init`: the initial condition holds, and the invariant doesn't.
    Init,
    /// `cert safe`: the invariant holds, and safety doesn't.
    Safe,
    /// `cert step`: the invariant holds before a round, and not behind it.
    Step,
    /// `cert fallback`: the invariant holds, and the controller doesn't allow the fallback.
    Fallback,
}

/// One term of a certificate. Its labels are the numbers of atoms of the case, from 1.
#[derive(Debug, Drop)]
pub enum CertTerm {
    /// A whole number times a product of atoms, the strict one.
    Pos {
        times: u64,
        labels: Items<u32>,
    },
    /// A whole number times squares of expressions and a product of atoms.
    Sum {
        times: u64,
        squares: Items<Expr>,
        labels: Items<u32>,
    },
    /// An expression times an atom that is an equation.
    Eq {
        label: u32,
        times: Expr,
    },
}

/// The certificate of the case of that number, from 1.
#[derive(Debug, Drop)]
pub struct Cert {
    /// The list of the case.
    pub part: Part,
    /// Which case of that list.
    pub number: u32,
    /// The terms, whose sum is to be 0.
    pub terms: Items<CertTerm>,
}

/// The names of a package's variables, in the order of their numbers.
#[derive(Debug, Drop)]
pub struct Names {
    /// The parameters.
    pub params: NameList,
    /// The states.
    pub states: NameList,
    /// The controls.
    pub controls: NameList,
}

/// A package: a model with its invariant, its fallback and its certificates. Its text is described
/// in `docs/package.md`.
#[derive(Debug, Drop)]
pub struct Package {
    /// The variables.
    pub names: Names,
    /// Where a run may start.
    pub init: Formula,
    /// What stays true from round to round.
    pub inv: Formula,
    /// What is asked at each sensing.
    pub safe: Formula,
    /// The controller.
    pub ctrl: Prog,
    /// The plant.
    pub plant: Plant,
    /// The value that the fallback gives each control.
    pub fallback: Items<Expr>,
    /// The certificates, in the order of the text.
    pub certs: Items<Cert>,
}
