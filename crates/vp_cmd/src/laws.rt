//! Laws of what is due: the contracts of these functions say them.
ghost use Rattle.std.specs.Prelude.{◌≡◌, ◌≤◌, List, Option, Some, false, length, true, ℕ};
ghost use Rattle.vp_isa.specs.Answering.{machine_of};
ghost use Rattle.vp_isa.specs.declared.code.Code.{Code};
ghost use Rattle.vp_monitor.specs.declared.types.Obligation.{Obligation};
ghost use Rattle.vp_outside.specs.Loading.{NamedFile, file_named};
ghost use Rattle.vp_sandbox.specs.Answer.{sandbox_of};
ghost use Rattle.vp_sandbox.specs.declared.sandbox.Sandbox.{Sandbox};
ghost use Rattle.vp_stream.specs.Run.{run};
ghost use Rattle.vp_synth.specs.Accepting.{Accepts, AreMadeOf};
ghost use Rattle.vp_terms.specs.declared.package.Package.{Package};
ghost use Rattle.vp_words.specs.Exchanges.{Agree};
ghost use Rattle.vp_cmd.specs.Alike.{AreAlike};
ghost use Rattle.vp_cmd.specs.Commands.{Check, Command, Compile, Exec, Run, built, writes_image};
ghost use Rattle.vp_cmd.specs.Dues.{IsDue, package_limit};
ghost use Rattle.vp_cmd.specs.Images.{HasRoom, IsImageOf};
ghost use Rattle.vp_cmd.specs.Outcomes.{Outcome, accepted, run_outcome};
ghost use Rattle.vp_cmd.specs.declared.status.Status.TheVariants as Status;

use vp_isa::laws::bytes_are_one_instruction;
use vp_read::laws::one_reading;
use vp_synth::laws::{alike_sandboxes_agree, one_listing, one_sandbox, one_verdict};

/// For each command that is built there is one outcome at most for files and an input. Where an image is
/// written, two that are due are images of codes that run alike over every input.
pub fn due_is_one()
    ensures one { (files : List NamedFile) (input : List ℕ) (command : Option Command) →
        writes_image command ≡ false → (d e : Outcome) →
        IsDue files input (built command) d → IsDue files input (built command) e → d ≡ e }
    ensures images { (files : List NamedFile) (input : List ℕ) (command : Option Command) →
        writes_image command ≡ true → (d e : Outcome) →
        IsDue files input command d → IsDue files input command e → AreAlike d e }
{
    one_reading();
    one_verdict();
    one_listing();
    one_sandbox();
    alike_sandboxes_agree();
}

/// A code that agrees with a sandbox over lists of due records runs as the sandbox does, over every input.
pub fn codes_run_as_sandboxes()
    ensures { (code : Code) (s : Sandbox) (input : List ℕ) → Agree (machine_of code) (sandbox_of s) →
        run (machine_of code) input ≡ run (sandbox_of s) input }
{}

/// What is due of `exec` over an image that was written for a package is the run of the package's sandbox.
pub fn written_images_run_as_sandboxes()
    ensures { (files : List NamedFile) (input name text bytes : List ℕ) (s : Sandbox) (o : Outcome) →
        IsImageOf text s bytes → file_named name files ≡ Some bytes →
        IsDue files input (Some (Exec name)) o → o ≡ run_outcome (run (sandbox_of s) input) }
{
    bytes_are_one_instruction();
}

/// Of the file of an accepted package no refusal is due: `check` accepts it, and where the sizes of its
/// sandbox are within the limits, `compile` is done and `run` gives the run of the sandbox.
pub fn accepted_packages_are_done()
    ensures checked { (files : List NamedFile) (input name text : List ℕ) (pkg : Package) (o : Outcome) →
        file_named name files ≡ Some text → length text ≤ package_limit → Accepts text pkg →
        IsDue files input (Some (Check name)) o → o ≡ accepted }
    ensures compiled { (files : List NamedFile) (input name text : List ℕ) (pkg : Package) (os : List Obligation) (s : Sandbox) (o : Outcome) →
        file_named name files ≡ Some text → length text ≤ package_limit → Accepts text pkg → AreMadeOf pkg os s → HasRoom s →
        IsDue files input (Some (Compile name)) o → o.status ≡ Status.Done }
    ensures run { (files : List NamedFile) (input name text : List ℕ) (pkg : Package) (os : List Obligation) (s : Sandbox) (o : Outcome) →
        file_named name files ≡ Some text → length text ≤ package_limit → Accepts text pkg → AreMadeOf pkg os s → HasRoom s →
        IsDue files input (Some (Run name)) o → o ≡ run_outcome (run (sandbox_of s) input) }
{
    one_verdict();
    one_sandbox();
    alike_sandboxes_agree();
}
