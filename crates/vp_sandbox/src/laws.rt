//! Laws of sandboxes: the contracts of these functions say them, and their bodies do nothing.
ghost use Rattle.std.specs.Prelude.{◌≡◌, ◌<◌, ◌≤◌, ℕ, ℤ, All, IsTrue, List, Some, length, map, slice_get};
ghost use Rattle.vp_words.specs.declared.record.Counts.{Counts};
ghost use Rattle.vp_words.specs.declared.record.Kind.{Kind};
ghost use Rattle.vp_words.specs.declared.record.Kind.TheVariants.{Choice};
ghost use Rattle.vp_words.specs.Exchanges.{AreDue, IsDueRecord, IsRecordOf, state_after};
ghost use Rattle.vp_words.specs.Record.{IsValid, field_count, kind_due, place_count};
ghost use Rattle.vp_terms.specs.Places.{has_variable};
ghost use Rattle.vp_terms.specs.declared.expr.Var.{Var};
ghost use Rattle.vp_poly.specs.declared.mono.Term.{Term};
ghost use Rattle.vp_poly.specs.Places.{AreBelow, places_for};
ghost use Rattle.vp_logic.specs.Tree.{tree};
ghost use Rattle.vp_interval.specs.Formula.{FormFits, PartsFit};
ghost use Rattle.vp_interval.specs.Polynomial.{AreSmall, interval_of};
ghost use Rattle.vp_interval.specs.Represents.{AreValid};
ghost use Rattle.vp_interval.specs.Rounding.{Ends};
ghost use Rattle.vp_sandbox.specs.declared.sandbox.Sandbox.{Sandbox};
ghost use Rattle.vp_sandbox.specs.Answer.{answered, sandbox_of, start};
ghost use Rattle.vp_sandbox.specs.Boxes.{box_after, box_at, box_tested, first_next_state, tested};
ghost use Rattle.vp_sandbox.specs.Fits.{Fits, PolysFit, in_init};
ghost use Rattle.vp_sandbox.specs.Sandbox.{State};

use vp_interval::laws::intervals_depend_on_places;

/// The box of each variable where a record is tested, and behind the reply, by the places that
/// variables have. The boxes of other places stay.
pub fn records_set_the_boxes_of_variables()
    ensures tested { (c : Counts) (boxes : List Ends) → IsValid c → length boxes ≡ 32 →
        (kind : Kind) (words : List ℤ) → length words ≡ field_count kind c →
        (v : Var) → IsTrue (has_variable (places_for c) v) →
        box_at c (tested c kind words boxes) v ≡ box_tested c kind words boxes v }
    ensures others { (c : Counts) (boxes : List Ends) → IsValid c → length boxes ≡ 32 →
        (kind : Kind) (words : List ℤ) → length words ≡ field_count kind c →
        (k : ℕ) → place_count c ≤ k → k < 32 →
        slice_get (tested c kind words boxes) k ≡ slice_get boxes k }
    ensures after { (s : Sandbox) (st : State) (kind : Kind) (words : List ℤ) → Fits s →
        length st.boxes ≡ 32 → kind_due st.due ≡ Some kind →
        length words ≡ field_count kind s.counts →
        (v : Var) → IsTrue (has_variable (places_for s.counts) v) →
        box_at s.counts (answered s st words).next.boxes v ≡
        box_after s.counts kind (answered s st words).reply (tested s.counts kind words st.boxes) v }
{}

/// Valid records are tested over valid boxes, and leave valid ones: there are 32 valid boxes behind
/// each list of records that are due one after another.
pub fn valid_records_keep_boxes_valid()
    ensures tested { (c : Counts) (kind : Kind) (words : List ℤ) (boxes : List Ends) →
        IsRecordOf c kind words → AreValid boxes → AreValid (tested c kind words boxes) }
    ensures after { (s : Sandbox) (st : State) (words : List ℤ) → Fits s → length st.boxes ≡ 32 →
        AreValid st.boxes → IsDueRecord (sandbox_of s) st words →
        AreValid (answered s st words).next.boxes }
    ensures size { (s : Sandbox) (st : State) (words : List ℤ) →
        length (answered s st words).next.boxes ≡ length st.boxes }
    ensures size_tested { (c : Counts) (kind : Kind) (words : List ℤ) (boxes : List Ends) →
        length (tested c kind words boxes) ≡ length boxes }
    ensures always { (s : Sandbox) (records : List (List ℤ)) → Fits s →
        AreDue (sandbox_of s) start records →
        (length (state_after (sandbox_of s) start records).boxes ≡ 32) ×
        AreValid (state_after (sandbox_of s) start records).boxes }
{}

/// The monitors of a sandbox that fits may be told the truth of over 32 boxes, and the intervals of its
/// fallback may be taken.
pub fn fitting_sandboxes_may_be_tested()
    ensures init { (s : Sandbox) → Fits s → PartsFit 32 (map tree s.init) }
    ensures ctrl { (s : Sandbox) → Fits s → FormFits 32 (tree s.ctrl) }
    ensures plant { (s : Sandbox) → Fits s → PartsFit 32 (map tree s.plant) }
    ensures places { (s : Sandbox) → Fits s → All (λ p. AreBelow 32 p) s.fallback }
    ensures small { (s : Sandbox) → Fits s → All (λ p. AreSmall p) s.fallback }
{}

/// The fallback goes by parameters, states and controls alone: where a choice is tested, its intervals
/// are those before it.
pub fn choices_keep_the_fallback()
    ensures { (c : Counts) (boxes : List Ends) (words : List ℤ) (fallback : List (List Term)) →
        first_next_state c ≤ length boxes → PolysFit (in_init c) fallback →
        map (interval_of (tested c Choice words boxes)) fallback ≡ map (interval_of boxes) fallback }
{
    intervals_depend_on_places();
}
