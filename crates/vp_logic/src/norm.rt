//! Normal forms: atoms, and lists of them that all hold or some of which hold.

use vp_poly::Poly;

/// How a polynomial compares to 0.
#[derive(Clone, Copy, Debug, PartialEq, Eq)]
pub enum Rel {
    /// `>= 0`
    Ge,
    /// `> 0`
    Gt,
    /// `= 0`
    Eq,
}

/// A polynomial's comparison to 0.
#[derive(Drop)]
pub struct Atom {
    /// What is compared to 0.
    pub poly: Poly,
    /// How it is compared.
    pub rel: Rel,
}

/// A normal form.
#[cycle(norm)]
#[derive(Drop)]
pub enum Norm {
    /// It holds where the atom does.
    Atom(Atom),
    /// All members hold. Without members it holds.
    And(Box<Norms>),
    /// Some member holds. Without members it doesn't hold.
    Or(Box<Norms>),
}

/// The members of an `And` or an `Or`, in order.
#[cycle(norm)]
#[derive(Drop)]
pub enum Norms {
    /// No members are left.
    End,
    /// A member, and those behind it.
    More(Norm, Box<Norms>),
}
