//! What a command opens before it answers: its files, and what they hold.
ghost use Rattle.std.specs.Prelude.{[], ◌≡◌, ◌≢◌, ◌≤◌, ℕ, IfErr, IfOk, List, MatchOption, Ok, Option, Some};
ghost use Rattle.vp_image.specs.Image.{image_read};
ghost use Rattle.vp_isa.specs.declared.code.Code.{Code};
ghost use Rattle.vp_outside.specs.Loading.{NamedFile};
ghost use Rattle.vp_runner.specs.Sessions.{StandsFor};
ghost use Rattle.vp_synth.specs.Stages.{Certified, Split};
ghost use Rattle.vp_cmd.specs.Clauses.{IsUnopened, RunsBy};
ghost use Rattle.vp_cmd.specs.Commands.{Check, Compile, Demo, Exec, Listing, Run, chosen, first_file, texts};
ghost use Rattle.vp_cmd.specs.Dues.{IsDue, OfCode, OfText, package_limit};
ghost use Rattle.vp_cmd.specs.Steps.{Halts, ImageRefused, IsOversized, IsShown, IsStored, IsTask, IsTooLong, IsUnrefused, LoadCause, LongRefused, OfStored, PackageRefused};
ghost use Rattle.vp_cmd.specs.Tank.{tank};

use crate::outcome::Outcome;
use crate::packages::{check_text, image_of, listed};
use crate::refusal::{bad_image, line};
use crate::status::Status;
use crate::tank::tank;
use crate::words::{Command, command_of};
use std::alloc::{AllocError, Global};
use vp_image::ImageErr;
use vp_outside::{LoadErr, Loaded, Store};
use vp_runner::Session;

/// The most bytes that the file of an image has.
const IMAGE_LIMIT: u32 = 2_097_152;

/// The most bytes that the file of a package has.
const PACKAGE_LIMIT: u32 = 1_048_576;

/// Why a command goes no further.
#[derive(Debug, Drop)]
pub(crate) enum Halt {
    /// This is due, and nothing more.
    Due(Outcome),
    /// A file could not be loaded.
    StoreFault,
    /// There was no memory.
    WantOfMemory,
}

impl From<AllocError> for Halt {
    ghost use Rattle.std.specs.Prelude.{◌≡◌};
    ghost use Rattle.vp_cmd.specs.declared.opening.Halt.TheVariants.{WantOfMemory};

    ghost from_gives = { λ _ h. h ≡ WantOfMemory };

    fn from(_: AllocError) -> Halt {
        Halt::WantOfMemory
    }
}

/// What a command does once its files are open.
#[derive(Debug, Drop)]
pub(crate) enum Task {
    /// The words are no command: the usage line is printed.
    Usage,
    /// This is printed.
    Print(Outcome),
    /// The input is answered.
    Stream(Session),
}

/// Loads a file, unless it has more bytes than the limit.
fn load<St: Store>(
    alloc: Global,
    name: &str,
    limit: u32,
    store: &mut St,
) -> Result<Option<Vec<u8>>, Halt>
    ensures loaded { IfOk result (λ file. MatchOption file (IsTooLong (St.files store.old) name.now limit)
        (λ bytes. IsStored (St.files store.old) name.now limit bytes.items)) }
    ensures halted { IfErr result (Halts (λ o. ⊥)) }
    ensures cause { LoadCause result (Some name.now) (St.faults store.old) (St.faults store.new)
        (St.failed store.old) (St.failed store.new) }
{
    let mut bytes = Vec::new(alloc);
    match store.load(alloc, name, limit, &mut bytes) {
        Ok(Loaded::Whole) => Ok(Some(bytes)),
        Ok(Loaded::TooLong) => Ok(None),
        Err(LoadErr::Failed) => Err(Halt::StoreFault),
        Err(LoadErr::Memory) => Err(Halt::WantOfMemory),
    }
}

/// Opens a session over the code of an image.
fn start(alloc: Global, image: &[u8]) -> Result<Session, Halt>
    ensures opened { IfOk result (λ s. ((digest : List ℕ) × (image_read image.now ≡ Ok (s.code, digest))) × StandsFor s.code [] s) }
    ensures halted { IfErr result (Halts (λ o. OfCode (λ code o. ⊥) (image_read image.now) o)) }
    ensures no_load { IfErr result (λ halt. halt ≢ Halt.StoreFault) }
{
    match Session::start(alloc, image) {
        Ok(session) => Ok(session),
        Err(why) => Err(Halt::Due(bad_image(alloc, why)?)),
    }
}

/// Opens a session over the code of the image in a file.
fn open_session<St: Store>(alloc: Global, name: &str, store: &mut St) -> Result<Session, Halt>
    ensures opened { IfOk result (λ s. RunsBy (St.files store.old) (Some (Exec name.now)) s.code × StandsFor s.code [] s) }
    ensures halted { IfErr result (Halts (OfStored (St.files store.old) (ImageRefused name.now))) }
    ensures cause { LoadCause result (Some name.now) (St.faults store.old) (St.faults store.new)
        (St.failed store.old) (St.failed store.new) }
{
    match load(alloc, name, IMAGE_LIMIT, store)? {
        Some(image) => start(alloc, &image),
        None => Err(Halt::Due(line(alloc, Status::BadImage, "bad image size\n")?)),
    }
}

/// Loads the text of a package.
fn open_text<St: Store>(alloc: Global, name: &str, store: &mut St) -> Result<Vec<u8>, Halt>
    ensures opened { IfOk result (λ text. IsStored (St.files store.old) name.now package_limit text.items) }
    ensures halted { IfErr result (Halts (OfStored (St.files store.old) (LongRefused name.now))) }
    ensures cause { LoadCause result (Some name.now) (St.faults store.old) (St.faults store.new)
        (St.failed store.old) (St.failed store.new) }
{
    match load(alloc, name, PACKAGE_LIMIT, store)? {
        Some(text) => Ok(text),
        None => Err(Halt::Due(line(alloc, Status::Refused, "refused length\n")?)),
    }
}

/// Checks a package.
fn check<St: Store>(alloc: Global, name: &str, store: &mut St) -> Result<Task, Halt>
    ensures task { IfOk result (IsTask (St.files store.old) (Some (Check name.now))) }
    ensures shown { IfOk result (IsShown (St.files store.old) (Some (Check name.now))) }
    ensures halted { IfErr result (Halts (OfStored (St.files store.old) (PackageRefused Certified IsUnrefused name.now))) }
    ensures cause { LoadCause result (Some name.now) (St.faults store.old) (St.faults store.new)
        (St.failed store.old) (St.failed store.new) }
{
    let text = open_text(alloc, name, store)?;
    check_text(alloc, &text)?;
    Ok(Task::Print(line(alloc, Status::Done, "accepted\n")?))
}

/// Compiles a package to an image.
fn compile<St: Store>(alloc: Global, name: &str, store: &mut St) -> Result<Task, Halt>
    ensures task { IfOk result (IsTask (St.files store.old) (Some (Compile name.now))) }
    ensures shown { IfOk result (IsShown (St.files store.old) (Some (Compile name.now))) }
    ensures halted { IfErr result (Halts (OfStored (St.files store.old) (PackageRefused Certified IsOversized name.now))) }
    ensures cause { LoadCause result (Some name.now) (St.faults store.old) (St.faults store.new)
        (St.failed store.old) (St.failed store.new) }
{
    let text = open_text(alloc, name, store)?;
    Ok(Task::Print(Outcome {
        status: Status::Done,
        text: image_of(alloc, &text)?,
    }))
}

/// Opens a session over an image that was just written.
fn start_written(alloc: Global, image: &[u8]) -> Result<Session, AllocError>
    requires { (code : Code) × (digest : List ℕ) × (image_read image.now ≡ Ok (code, digest)) }
    ensures { IfOk result (λ s. ((digest : List ℕ) × (image_read image.now ≡ Ok (s.code, digest))) × StandsFor s.code [] s) }
{
    match Session::start(alloc, image) {
        Ok(session) => Ok(session),
        Err(ImageErr::Memory) => Err(AllocError),
        // An image that was written is read back.
        Err(_) => unreachable!(),
    }
}

/// Compiles a package, to run it over the input.
fn run<St: Store>(alloc: Global, name: &str, store: &mut St) -> Result<Task, Halt>
    ensures task { IfOk result (IsTask (St.files store.old) (Some (Run name.now))) }
    ensures halted { IfErr result (Halts (OfStored (St.files store.old) (PackageRefused Certified IsOversized name.now))) }
    ensures cause { LoadCause result (Some name.now) (St.faults store.old) (St.faults store.new)
        (St.failed store.old) (St.failed store.new) }
{
    let text = open_text(alloc, name, store)?;
    let image = image_of(alloc, &text)?;
    Ok(Task::Stream(start_written(alloc, &image)?))
}

/// Lists what is made of a package.
fn listing<St: Store>(alloc: Global, name: &str, store: &mut St) -> Result<Task, Halt>
    ensures task { IfOk result (IsTask (St.files store.old) (Some (Listing name.now))) }
    ensures halted { IfErr result (Halts (OfStored (St.files store.old) (PackageRefused Split IsUnrefused name.now))) }
    ensures cause { LoadCause result (Some name.now) (St.faults store.old) (St.faults store.new)
        (St.failed store.old) (St.failed store.new) }
{
    let text = open_text(alloc, name, store)?;
    Ok(Task::Print(Outcome {
        status: Status::Done,
        text: listed(alloc, &text)?,
    }))
}

/// Compiles the tank to an image.
fn demo(alloc: Global) -> Result<Task, Halt>
    ensures task { (files : Option (List NamedFile)) → IfOk result (IsTask files (Some Demo)) }
    ensures shown { (files : Option (List NamedFile)) → IfOk result (IsShown files (Some Demo)) }
    ensures halted { IfErr result (Halts (OfText Certified IsOversized tank)) }
    ensures no_load { IfErr result (λ halt. halt ≢ Halt.StoreFault) }
{
    Ok(Task::Print(Outcome {
        status: Status::Done,
        text: image_of(alloc, tank())?,
    }))
}

/// Runs an image over the input.
fn exec<St: Store>(alloc: Global, name: &str, store: &mut St) -> Result<Task, Halt>
    ensures task { IfOk result (IsTask (St.files store.old) (Some (Exec name.now))) }
    ensures halted { IfErr result (Halts (OfStored (St.files store.old) (ImageRefused name.now))) }
    ensures cause { LoadCause result (Some name.now) (St.faults store.old) (St.faults store.new)
        (St.failed store.old) (St.failed store.new) }
{
    let session = open_session(alloc, name, store)?;
    Ok(Task::Stream(session))
}

/// Opens the files of the command that the words are.
pub(crate) fn open<St: Store>(alloc: Global, words: &[String], store: &mut St) -> Result<Task, Halt>
    ensures task { IfOk result (IsTask (St.files store.old) (chosen (texts words.now))) }
    ensures halted { IfErr result (Halts (OfStored (St.files store.old)
        (λ fs o. (input : List ℕ) → IsDue fs input (chosen (texts words.now)) o))) }
    ensures shown { IfOk result (IsShown (St.files store.old) (chosen (texts words.now))) }
    ensures refused { IfErr result (Halts (λ o. IsUnopened o.status)) }
    ensures cause { LoadCause result (first_file (chosen (texts words.now))) (St.faults store.old)
        (St.faults store.new) (St.failed store.old) (St.failed store.new) }
{
    match command_of(words) {
        Some(Command::Check(name)) => check(alloc, name, store),
        Some(Command::Compile(name)) => compile(alloc, name, store),
        Some(Command::Exec(name)) => exec(alloc, name, store),
        Some(Command::Run(name)) => run(alloc, name, store),
        Some(Command::Listing(name)) => listing(alloc, name, store),
        Some(Command::Demo) => demo(alloc),
        // The other commands are not built yet.
        Some(Command::Log(..) | Command::SelfTest { .. }) | None => Ok(Task::Usage),
    }
}
