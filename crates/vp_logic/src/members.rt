//! The conjuncts and the atoms of normal forms.
ghost use Rattle.std.specs.Prelude.{◌≡◌, ◌++◌, map, take, IfOk, OnOk};
ghost use Rattle.vp_poly.specs.Value.{Point};
ghost use Rattle.vp_logic.specs.Truth.{tree_holds, parts_hold};
ghost use Rattle.vp_logic.specs.Tree.{tree, trees, conjuncts_of, each_conjunct, atoms_of, atoms_each, all_atoms};

use crate::{Atom, Norm, Norms};
use std::alloc::{AllocError, Global};

/// The parts that all hold exactly where the form does: of an `And` those of its members in order,
/// and any other form itself.
#[tactic(auto, using(crate::proofs::Listing::listing))]
pub fn conjuncts(alloc: Global, n: Norm) -> Result<Vec<Norm>, AllocError>
    ensures form { IfOk result (λ parts. map tree parts.items ≡ conjuncts_of (tree n)) }
    ensures holds { IfOk result (λ parts. (x : Point) → parts_hold (map tree parts.items) x ≡ tree_holds (tree n) x) }
{
    let mut parts = Vec::new(alloc);
    push_conjuncts(&mut parts, n)?;
    Ok(parts)
}

#[cycle(conjuncts)]
fn push_conjuncts(parts: &mut Vec<Norm>, norm: Norm) -> Result<(), AllocError>
    ensures { OnOk result (map tree parts.new.items ≡ map tree parts.old.items ++ conjuncts_of (tree norm)) }
{
    match norm {
        Norm::And(members) => push_each(parts, Box::into_inner(members)),
        Norm::Atom(atom) => {
            parts.push(Norm::Atom(atom))?;
            Ok(())
        }
        Norm::Or(members) => {
            parts.push(Norm::Or(members))?;
            Ok(())
        }
    }
}

#[cycle(conjuncts)]
fn push_each(parts: &mut Vec<Norm>, norms: Norms) -> Result<(), AllocError>
    ensures { OnOk result (map tree parts.new.items ≡ map tree parts.old.items ++ each_conjunct (trees norms)) }
{
    match norms {
        Norms::End => Ok(()),
        Norms::More(first, rest) => {
            push_conjuncts(parts, first)?;
            push_each(parts, Box::into_inner(rest))
        }
    }
}

/// All atoms from left to right.
#[tactic(auto, using(crate::proofs::Listing::listing))]
pub fn atoms(alloc: Global, parts: &[Norm]) -> Result<Vec<Atom>, AllocError>
    ensures { IfOk result (λ v. v.items ≡ all_atoms (map tree parts.now)) }
{
    let mut atoms = Vec::new(alloc);
    for part in parts {
        push_atoms(alloc, &mut atoms, part)?;
    }
    Ok(atoms)
}

#[cycle(atoms)]
fn push_atoms(alloc: Global, atoms: &mut Vec<Atom>, norm: &Norm) -> Result<(), AllocError>
    ensures { OnOk result (atoms.new.items ≡ atoms.old.items ++ atoms_of (tree norm.now)) }
{
    match norm {
        Norm::Atom(atom) => {
            let poly = atom.poly.copy(alloc)?;
            atoms.push(Atom {
                poly,
                rel: atom.rel,
            })?;
            Ok(())
        }
        Norm::And(members) | Norm::Or(members) => push_atoms_of_each(alloc, atoms, members),
    }
}

#[cycle(atoms)]
fn push_atoms_of_each(alloc: Global, atoms: &mut Vec<Atom>, norms: &Norms) -> Result<(), AllocError>
    ensures { OnOk result (atoms.new.items ≡ atoms.old.items ++ atoms_each (trees norms.now)) }
{
    match norms {
        Norms::End => Ok(()),
        Norms::More(first, rest) => {
            push_atoms(alloc, atoms, first)?;
            push_atoms_of_each(alloc, atoms, rest)
        }
    }
}
