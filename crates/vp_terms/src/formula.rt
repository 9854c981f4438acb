//! Formulas.
ghost use Rattle.std.specs.Prelude.{◌≡◌, IfOk};
ghost use Rattle.vp_terms.specs.Tree.{formula_tree};
ghost use Rattle.vp_terms.specs.Variables.{formula_has_places_below};

use crate::{Expr, Places};
use std::alloc::{AllocError, Global};

/// How two values compare.
#[derive(Clone, Copy, Debug, PartialEq, Eq)]
pub enum Cmp {
    /// `<=`
    Le,
    /// `<`
    Lt,
    /// `>=`
    Ge,
    /// `>`
    Gt,
    /// `=`
    Eq,
    /// `!=`
    Ne,
}

/// A formula.
#[derive(Debug, Drop)]
pub enum Formula {
    /// Holds always.
    True,
    /// Holds where the values of the two expressions compare so.
    Cmp(Cmp, Expr, Expr),
    /// Holds where both do.
    And(Box<Formula>, Box<Formula>),
    /// Holds where at least one does.
    Or(Box<Formula>, Box<Formula>),
    /// Holds where the formula doesn't.
    Not(Box<Formula>),
}

impl Formula {
    /// Whether each variable has a place below `limit`.
    pub fn has_places_below(&self, places: Places, limit: u64) -> bool
        ensures { result ≡ formula_has_places_below places limit self.now }
    {
        match self {
            Formula::True => true,
            Formula::Cmp(_, l, r) => {
                l.has_places_below(places, limit) && r.has_places_below(places, limit)
            }
            Formula::And(l, r) | Formula::Or(l, r) => {
                l.has_places_below(places, limit) && r.has_places_below(places, limit)
            }
            Formula::Not(inner) => inner.has_places_below(places, limit),
        }
    }

    /// The same formula once more.
    pub fn copy(&self, alloc: Global) -> Result<Formula, AllocError>
        ensures { IfOk result (λ f. formula_tree f ≡ formula_tree self.now) }
    {
        match self {
            Formula::True => Ok(Formula::True),
            Formula::Cmp(cmp, l, r) => Ok(Formula::Cmp(*cmp, l.copy(alloc)?, r.copy(alloc)?)),
            Formula::And(l, r) => Ok(Formula::And(
                Box::new(alloc, l.copy(alloc)?)?,
                Box::new(alloc, r.copy(alloc)?)?,
            )),
            Formula::Or(l, r) => Ok(Formula::Or(
                Box::new(alloc, l.copy(alloc)?)?,
                Box::new(alloc, r.copy(alloc)?)?,
            )),
            Formula::Not(inner) => Ok(Formula::Not(Box::new(alloc, inner.copy(alloc)?)?)),
        }
    }
}
