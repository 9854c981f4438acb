//! Laws of runs of codes, and of input in pieces: the contracts of these functions say them.
ghost use Rattle.std.specs.Prelude.{◌≡◌, ◌<◌, ◌^◌, ◌++◌, ◌∷◌, ◌↔◌, ℕ, [], IsOk, List, Option, Some, length};
ghost use Rattle.vp_isa.specs.declared.code.Code.{Code};
ghost use Rattle.vp_isa.specs.Answering.{machine_of};
ghost use Rattle.vp_stream.specs.declared.verdict.Verdict.TheVariants as verdict;
ghost use Rattle.vp_stream.specs.Pieces.{added, joined, pieces_added};
ghost use Rattle.vp_stream.specs.Answers.{IsMadeOf, answers_of};
ghost use Rattle.vp_stream.specs.Run.{run, so_far, text_of};
ghost use Rattle.vp_words.specs.Exchanges.{Agree};
ghost use Rattle.vp_runner.specs.declared.ends.End.{End};
ghost use Rattle.vp_runner.specs.declared.ends.End.TheVariants as end;
ghost use Rattle.vp_runner.specs.declared.ends.Fed.{Fed};
ghost use Rattle.vp_runner.specs.declared.ends.Fed.TheVariants as fed;
ghost use Rattle.vp_runner.specs.Cutting.{FeedsAll};
ghost use Rattle.vp_runner.specs.Sessions.{Feeds, Finishes, SessionState};

/// How an input is cut into pieces changes nothing. What pieces add one after the other is what their
/// join adds; pieces that are fed one after the other are fed as their join is; and pieces with one join
/// have one last answer and one text, where no write fails and the sink tells its bytes. So has the end
/// of the input.
pub fn cutting_changes_nothing()
    ensures text { (code : Code) (bytes : List ℕ) (pieces : List (List ℕ)) →
        pieces_added (machine_of code) bytes pieces ≡ added (machine_of code) bytes (joined pieces) }
    ensures fed { (last : Fed) (code : Code) (bytes : List ℕ) (pieces : List (List ℕ))
        (s : SessionState) (before now : Option (List ℕ)) → FeedsAll last code bytes pieces s before now → Feeds last code bytes (joined pieces) s before now }
    ensures alike { (last other : Fed) (code : Code) (bytes : List ℕ) (pieces others : List (List ℕ))
        (s t : SessionState) (told : List ℕ) (now now_other : Option (List ℕ)) →
        joined pieces ≡ joined others → ¬ (last ≡ fed.Failed) → ¬ (other ≡ fed.Failed) →
        FeedsAll last code bytes pieces s (Some told) now → FeedsAll other code bytes others t (Some told) now_other →
        (last ≡ other) × (now ≡ now_other) }
    ensures finished { (last other : End) (code : Code) (bytes told : List ℕ) (now now_other : Option (List ℕ)) →
        ¬ (last ≡ end.Failed) → ¬ (other ≡ end.Failed) →
        Finishes last code bytes (Some told) now → Finishes other code bytes (Some told) now_other →
        (last ≡ other) × (now ≡ now_other) }
{}

/// The text of a run is the lines of the code's replies to records that were due, each in its turn, and
/// what ends it; it ends with a violation exactly where a reply is one.
pub fn runs_are_made_of_replies()
    ensures { (code : Code) (bytes : List ℕ) →
        IsMadeOf (machine_of code) (answers_of (machine_of code) bytes) (run (machine_of code) bytes) }
{}

/// Codes whose machines agree over lists of due records run alike over every input: one text and one
/// verdict, one text so far, and the same answers.
pub fn agreeing_codes_run_alike()
    ensures runs { (code other : Code) (bytes : List ℕ) → Agree (machine_of code) (machine_of other) →
        run (machine_of code) bytes ≡ run (machine_of other) bytes }
    ensures so_far { (code other : Code) (bytes : List ℕ) → Agree (machine_of code) (machine_of other) →
        text_of (so_far (machine_of code) bytes) ≡ text_of (so_far (machine_of other) bytes) }
    ensures answers { (code other : Code) (bytes : List ℕ) → Agree (machine_of code) (machine_of other) →
        answers_of (machine_of code) bytes ≡ answers_of (machine_of other) bytes }
{}

/// A run is done exactly where its input has less than `2^62` bytes and, with one LF behind it, neither a
/// violation nor a bad line.
pub fn runs_are_done()
    ensures { (code : Code) (bytes : List ℕ) →
        ((run (machine_of code) bytes).verdict ≡ verdict.Done) ↔
        ((length bytes < 2 ^ 62) × IsOk (so_far (machine_of code) (bytes ++ 10 ∷ [])).stands) }
{}
