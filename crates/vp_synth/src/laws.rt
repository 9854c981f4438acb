//! Laws of acceptance: the contracts of these functions say them, and their bodies do nothing.
ghost use Rattle.std.specs.Prelude.{◌≡◌, ℕ, List, map};
ghost use Rattle.vp_words.specs.Exchanges.{Agree};
ghost use Rattle.vp_terms.specs.declared.package.Package.{Package};
ghost use Rattle.vp_logic.specs.Tree.{tree};
ghost use Rattle.vp_monitor.specs.Obligations.{path_tree};
ghost use Rattle.vp_monitor.specs.declared.types.Monitors.{Monitors};
ghost use Rattle.vp_monitor.specs.declared.types.Obligation.{Obligation};
ghost use Rattle.vp_read.specs.Reading.{IsPackage};
ghost use Rattle.vp_sandbox.specs.Answer.{sandbox_of};
ghost use Rattle.vp_sandbox.specs.declared.sandbox.Sandbox.{Sandbox};
ghost use Rattle.vp_synth.specs.Accepting.{AreMadeOf};
ghost use Rattle.vp_synth.specs.Listing.{disjuncts_of, listing};
ghost use Rattle.vp_synth.specs.Sandboxes.{IsMadeOf, SameParts};
ghost use Rattle.vp_synth.specs.Stages.{IsRefused, Passes, Stage};
ghost use Rattle.vp_synth.specs.declared.refusal.Refusal.{Refusal};

use vp_cert::laws::{certificates_have_one_outcome, equal_trees_refute_alike};
use vp_monitor::laws::{
    equal_trees_have_the_same_monitors, monitors_have_one_outcome, obligations_have_one_outcome,
};
use vp_read::laws::{one_reading, packages_are_well_formed};

/// Sandboxes that differ in the boxes of their forms alone agree.
pub fn alike_sandboxes_agree()
    ensures { (s t : Sandbox) → SameParts s t → Agree (sandbox_of s) (sandbox_of t) }
{}

/// The lines of the controller in a listing are those of the paths.
pub fn paths_are_listed()
    ensures { (m : Monitors) (s : Sandbox) → IsMadeOf m s →
        disjuncts_of (tree s.ctrl) ≡ map path_tree m.paths }
{}

/// Up to each stage a text has one first refusal, and none where it passes.
pub fn one_verdict()
    ensures refused { (stage : Stage) (text : List ℕ) (r s : Refusal) → IsRefused stage text r →
        IsRefused stage text s → r ≡ s }
    ensures apart { (stage : Stage) (text : List ℕ) (pkg : Package) (r : Refusal) →
        Passes stage text pkg → IsRefused stage text r → ⊥ }
{
    one_reading();
    packages_are_well_formed();
    equal_trees_have_the_same_monitors();
    monitors_have_one_outcome();
    obligations_have_one_outcome();
    equal_trees_refute_alike();
    certificates_have_one_outcome();
}

/// A text has one sandbox, but for the boxes of its forms.
pub fn one_sandbox()
    ensures { (text : List ℕ) (p q : Package) (os ps : List Obligation) (s t : Sandbox) →
        IsPackage text p → IsPackage text q → AreMadeOf p os s → AreMadeOf q ps t → SameParts s t }
{
    one_reading();
    packages_are_well_formed();
    equal_trees_have_the_same_monitors();
    monitors_have_one_outcome();
    obligations_have_one_outcome();
}

/// A text has one listing.
pub fn one_listing()
    ensures { (text : List ℕ) (p q : Package) (os ps : List Obligation) (s t : Sandbox) →
        IsPackage text p → IsPackage text q → AreMadeOf p os s → AreMadeOf q ps t →
        listing p.names s os ≡ listing q.names t ps }
{
    one_reading();
    packages_are_well_formed();
    equal_trees_have_the_same_monitors();
    monitors_have_one_outcome();
    obligations_have_one_outcome();
}
