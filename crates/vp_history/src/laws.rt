//! Laws of runs of sandboxes: the contracts of these functions say them. The definitions are told in
//! `docs/headline.md`.
ghost use Rattle.std.specs.Prelude.{◌<ℤ◌, ◌≡◌, ◌∷◌, ℕ, ℤ, [], List, pos, true};
ghost use Rattle.vp_words.specs.declared.record.Reply.TheVariants as reply;
ghost use Rattle.vp_words.specs.declared.record.Why.TheVariants as why;
ghost use Rattle.vp_words.specs.Exchanges.{AreDue};
ghost use Rattle.vp_stream.specs.Answers.{answers_of};
ghost use Rattle.vp_terms.specs.Model.{IsInductive, model_of};
ghost use Rattle.vp_terms.specs.Plant.{Flow};
ghost use Rattle.vp_terms.specs.Rational.{fraction, whole};
ghost use Rattle.vp_terms.specs.declared.package.Package.{Package};
ghost use Rattle.vp_sandbox.specs.declared.sandbox.Sandbox.{Sandbox};
ghost use Rattle.vp_sandbox.specs.Answer.{sandbox_of, start};
ghost use Rattle.vp_sandbox.specs.Fits.{Fits};
ghost use Rattle.vp_history.specs.Allowed.{DeniesRightly, IsSafe};
ghost use Rattle.vp_history.specs.History.{History, IsRepresented, first, values_of};
ghost use Rattle.vp_history.specs.Means.{Means};
ghost use Rattle.vp_history.specs.Reports.{AreRight, ReportsRightly};
ghost use Rattle.vp_history.specs.Rounds.{IsSampledRun, rounds_from};
ghost use Rattle.vp_history.specs.Worked.{levels, tank, worked};

use vp_interval::laws::{
    first_truths, points_are_exact, polynomials_are_enclosed, truths_are_sound,
    valid_boxes_represent_values,
};
use vp_sandbox::laws::{
    fitting_sandboxes_may_be_tested, records_set_the_boxes_of_variables,
    valid_records_keep_boxes_valid,
};
use vp_terms::laws::places_tell_variables;

/// No sandbox that fits reports a monitor that is Yes over the boxes of the record: over every list of
/// records that are due, each in its turn, and over every input.
pub fn reports_are_right()
    ensures due { (s : Sandbox) (records : List (List ℤ)) → Fits s → AreDue (sandbox_of s) start records →
        AreRight s start records }
    ensures always { (s : Sandbox) → Fits s → ReportsRightly s }
{
    valid_records_keep_boxes_valid();
    fitting_sandboxes_may_be_tested();
    first_truths();
    truths_are_sound();
}

/// Where the parts of a sandbox that fits mean those of a package's model whose invariant is inductive,
/// the model allows every history that the records answered over an input represent, and the history
/// is a sampled run of the model.
pub fn histories_are_allowed()
    ensures safe { (flow : Flow) (pkg : Package) (s : Sandbox) → Fits s → Means s (model_of flow pkg) →
        IsInductive (model_of flow pkg) → IsSafe s (model_of flow pkg) }
    ensures runs { (flow : Flow) (pkg : Package) (s : Sandbox) → Fits s → Means s (model_of flow pkg) →
        IsInductive (model_of flow pkg) → (bytes : List ℕ) (h : History) →
        IsRepresented s.counts h (answers_of (sandbox_of s) bytes) →
        IsSampledRun (model_of flow pkg) s.counts h (answers_of (sandbox_of s) bytes) }
{
    places_tell_variables();
    records_set_the_boxes_of_variables();
    valid_records_keep_boxes_valid();
    fitting_sandboxes_may_be_tested();
    valid_boxes_represent_values();
    points_are_exact();
    polynomials_are_enclosed();
    first_truths();
    truths_are_sound();
}

/// Where the parts of a sandbox that fits mean those of a package's model, a violation with `false`
/// denies every history that the records answered before it represent, and whose values stand in the
/// boxes of that record too: the model may not start there, or the plant can't have gone so.
pub fn false_reports_deny_histories()
    ensures { (flow : Flow) (pkg : Package) (s : Sandbox) → Fits s → Means s (model_of flow pkg) →
        DeniesRightly s (model_of flow pkg) }
{
    places_tell_variables();
    records_set_the_boxes_of_variables();
    valid_records_keep_boxes_valid();
    fitting_sandboxes_may_be_tested();
    valid_boxes_represent_values();
    points_are_exact();
    polynomials_are_enclosed();
    first_truths();
    truths_are_sound();
}

/// The worked run of the tank represents a level of 501.5 and then of 552, which is one round. It doesn't
/// represent a second level of 550, unless the last record was answered by a violation.
pub fn worked_histories()
    ensures represented { (half : pos 0 <ℤ pos 2) →
        IsRepresented tank (levels (fraction (pos 1003) (pos 2) half) (whole (pos 552))) (worked reply.Ok) }
    ensures outside { ¬ IsRepresented tank (levels (whole (pos 501)) (whole (pos 550))) (worked reply.Ok) }
    ensures unasked { IsRepresented tank (levels (whole (pos 501)) (whole (pos 550)))
        (worked (reply.Violation (why.Plant 3 true))) }
    ensures rounds { rounds_from tank (levels (whole (pos 501)) (whole (pos 552))) first (worked reply.Ok) ≡
        (record { controls = values_of (pos 5 ∷ []); time = whole (pos 10); states = λ k. whole (pos 552) }) ∷ [] }
{}
