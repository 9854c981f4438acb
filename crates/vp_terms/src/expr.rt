//! Variables and expressions.
ghost use Rattle.std.specs.Prelude.{◌≡◌, IfOk};
ghost use Rattle.vp_terms.specs.Places.{place};
ghost use Rattle.vp_terms.specs.Tree.{expr_tree};
ghost use Rattle.vp_terms.specs.Variables.{has_places_below};

use crate::Ratio;
use std::alloc::{AllocError, Global};

/// A variable, by its kind and its number among those of its kind, from 0.
#[derive(Clone, Copy, Debug, PartialEq, Eq)]
pub enum Var {
    /// A parameter, which never changes.
    Param(u32),
    /// A state, as it was sensed last.
    State(u32),
    /// A control in force.
    Control(u32),
    /// A state at the next sensing.
    NextState(u32),
    /// A control for the next round.
    NextControl(u32),
    /// The time that a round takes.
    Tau,
}

/// How many parameters, states and controls a model has. This fixes the place of each variable.
#[derive(Clone, Copy, Debug, PartialEq, Eq)]
pub struct Places {
    /// How many parameters.
    pub params: u32,
    /// How many states.
    pub states: u32,
    /// How many controls.
    pub controls: u32,
}

impl Var {
    /// The variable's place, from 0: parameters, states, controls, next states, next controls and
    /// `tau`, in this order.
    pub fn place(self, places: Places) -> u64
        ensures { result ≡ place places self }
    {
        let params = places.params as u64;
        let states = places.states as u64;
        let controls = places.controls as u64;
        match self {
            Var::Param(i) => i as u64,
            Var::State(i) => params + i as u64,
            Var::Control(i) => params + states + i as u64,
            Var::NextState(i) => params + states + controls + i as u64,
            Var::NextControl(i) => params + 2 * states + controls + i as u64,
            Var::Tau => params + 2 * states + 2 * controls,
        }
    }
}

/// An expression.
#[derive(Debug, Drop)]
pub enum Expr {
    /// A number.
    Num(Ratio),
    /// The value of a variable.
    Var(Var),
    /// The sum.
    Add(Box<Expr>, Box<Expr>),
    /// The first less the second.
    Sub(Box<Expr>, Box<Expr>),
    /// The product.
    Mul(Box<Expr>, Box<Expr>),
    /// A repeated product: the power 0 is 1.
    Pow(Box<Expr>, u32),
}

impl Expr {
    /// Whether each variable has a place below `limit`.
    pub fn has_places_below(&self, places: Places, limit: u64) -> bool
        ensures { result ≡ has_places_below places limit self.now }
    {
        match self {
            Expr::Num(_) => true,
            Expr::Var(variable) => variable.place(places) < limit,
            Expr::Add(l, r) | Expr::Sub(l, r) | Expr::Mul(l, r) => {
                l.has_places_below(places, limit) && r.has_places_below(places, limit)
            }
            Expr::Pow(base, _) => base.has_places_below(places, limit),
        }
    }

    /// The same expression once more.
    pub fn copy(&self, alloc: Global) -> Result<Expr, AllocError>
        ensures { IfOk result (λ e. expr_tree e ≡ expr_tree self.now) }
    {
        match self {
            Expr::Num(number) => Ok(Expr::Num(*number)),
            Expr::Var(variable) => Ok(Expr::Var(*variable)),
            Expr::Add(l, r) => Ok(Expr::Add(
                Box::new(alloc, l.copy(alloc)?)?,
                Box::new(alloc, r.copy(alloc)?)?,
            )),
            Expr::Sub(l, r) => Ok(Expr::Sub(
                Box::new(alloc, l.copy(alloc)?)?,
                Box::new(alloc, r.copy(alloc)?)?,
            )),
            Expr::Mul(l, r) => Ok(Expr::Mul(
                Box::new(alloc, l.copy(alloc)?)?,
                Box::new(alloc, r.copy(alloc)?)?,
            )),
            Expr::Pow(base, exponent) => {
                Ok(Expr::Pow(Box::new(alloc, base.copy(alloc)?)?, *exponent))
            }
        }
    }
}
