//! The labels of a case.
ghost use Rattle.std.specs.Prelude.{◌≡◌, option_copied};
ghost use Rattle.vp_cert.specs.Certificate.{begins_strict, term_is_strict, label_passes, labelled, labels_fit, labels_pass};
ghost use Rattle.vp_cert.specs.Wanted.{wants};

use vp_logic::{Atom, Rel};
use vp_terms::CertTerm;

/// Which atoms a label may name.
#[derive(Clone, Copy, Debug, PartialEq, Eq)]
pub(crate) enum Wanted {
    /// Each atom.
    Any,
    /// An atom that is above 0 or at least 0.
    Inequality,
    /// An atom that is 0.
    Equation,
    /// An atom that is above 0.
    Strict,
}

impl Wanted {
    fn is_met_by(self, rel: Rel) -> bool
        ensures { result ≡ wants self rel }
    {
        match self {
            Wanted::Any => true,
            Wanted::Inequality => rel != Rel::Eq,
            Wanted::Equation => rel == Rel::Eq,
            Wanted::Strict => rel == Rel::Gt,
        }
    }
}

/// The atom of a label, if the case has one.
pub(crate) fn atom_of<'a>(atoms: &'a [Atom], places: &[u32], label: u32) -> Option<&'a Atom>
    ensures { option_copied result ≡ labelled atoms.now places.now label }
{
    let index = label.checked_sub(1)?;
    let place = *places.get(index as usize)?;
    atoms.get(place as usize)
}

fn label_passes(atoms: &[Atom], places: &[u32], wanted: Wanted, label: u32) -> bool
    ensures { result ≡ label_passes (labelled atoms.now places.now) (wants wanted) label }
{
    match atom_of(atoms, places, label) {
        Some(atom) => wanted.is_met_by(atom.rel),
        None => false,
    }
}

fn labels_pass(atoms: &[Atom], places: &[u32], wanted: Wanted, labels: &[u32]) -> bool
    ensures { result ≡ labels_pass (labelled atoms.now places.now) (wants wanted) labels.now }
{
    labels
        .iter()
        .all(|label| label_passes(atoms, places, wanted, *label))
}

/// Whether each label of a term is one of the case's and of the kind that the term asks for.
pub(crate) fn labels_fit(atoms: &[Atom], places: &[u32], term: &CertTerm) -> bool
    ensures { result ≡ labels_fit (labelled atoms.now places.now) term.now }
{
    match term {
        CertTerm::Pos { labels, .. } => labels_pass(atoms, places, Wanted::Any, labels.get()),
        CertTerm::Sum { labels, .. } => {
            labels_pass(atoms, places, Wanted::Inequality, labels.get())
        }
        CertTerm::Eq { label, .. } => label_passes(atoms, places, Wanted::Equation, *label),
    }
}

/// Whether the first term is a positive number times strict atoms.
pub(crate) fn begins_strict(atoms: &[Atom], places: &[u32], terms: &[CertTerm]) -> bool
    ensures { result ≡ begins_strict (labelled atoms.now places.now) terms.now }
{
    match terms {
        [first, ..] => is_strict(atoms, places, first),
        [] => false,
    }
}

fn is_strict(atoms: &[Atom], places: &[u32], term: &CertTerm) -> bool
    ensures { result ≡ term_is_strict (labelled atoms.now places.now) term.now }
{
    match term {
        CertTerm::Pos { times, labels } => {
            *times > 0 && labels_pass(atoms, places, Wanted::Strict, labels.get())
        }
        CertTerm::Sum { .. } | CertTerm::Eq { .. } => false,
    }
}
