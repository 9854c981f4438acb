//! The lines that are printed in place of an answer: why a file is no image, or why a package is refused.
ghost use Rattle.std.specs.Prelude.{◌≡◌, ◌≢◌, ◌≤◌, ◌++◌, IfErr, IfOk, OnOk, codes, length, map, string_bytes};
ghost use Rattle.std.specs.List.{flat_map};
ghost use Rattle.vp_cert.specs.declared.error.CertErr.TheVariants as cert;
ghost use Rattle.vp_gen.specs.declared.generate.GenErr.TheVariants as gen;
ghost use Rattle.vp_image.specs.declared.image.ImageErr.TheVariants.{Memory};
ghost use Rattle.vp_monitor.specs.declared.error.MonErr.TheVariants as monitor;
ghost use Rattle.vp_read.specs.Reading.{IsPackage};
ghost use Rattle.vp_read.specs.declared.fault.ReadErr.TheVariants as fault;
ghost use Rattle.vp_synth.specs.Listing.{part_text};
ghost use Rattle.vp_synth.specs.Printing.{joined_by};
ghost use Rattle.vp_synth.specs.declared.refusal.Refusal.TheVariants as refusal;
ghost use Rattle.vp_terms.specs.declared.package.Package.{Package};
ghost use Rattle.vp_cmd.specs.Dues.{IsRefusal, package_limit};
ghost use Rattle.vp_cmd.specs.Printed.{IsPrinted};
ghost use Rattle.vp_cmd.specs.Outcomes.{bad_image, cert_text, check_text, image_text, monitor_text, name_at, place_text, read_text, refused, size_text, why_text, wide_text, wrong_text};
ghost use Rattle.vp_cmd.specs.Steps.{IsNamed};

use crate::outcome::Outcome;
use crate::status::Status;
use std::alloc::{AllocError, Global};
use vp_cert::{CertErr, CertWhy};
use vp_gen::GenErr;
use vp_image::ImageErr;
use vp_isa::CheckErr;
use vp_monitor::{MonErr, Place};
use vp_read::laws::one_reading;
use vp_read::{ReadErr, read_package};
use vp_synth::{Refusal, part_text, push_monomial, variable_names};
use vp_terms::{NameText, Names, Package, Part};

/// Writes words and a number.
fn push_number(
    alloc: Global,
    words: &str,
    number: u64,
    text: &mut Vec<u8>,
) -> Result<(), AllocError>
    ensures { OnOk result (text.new.items ≡ text.old.items ++ place_text words.now number) }
{
    text.extend_from_slice(words.as_bytes())?;
    text.extend_from_slice(number.to_string(alloc)?.as_bytes())
}

/// Writes words and the number of a place.
fn push_place(alloc: Global, words: &str, at: u32, text: &mut Vec<u8>) -> Result<(), AllocError>
    ensures { OnOk result (text.new.items ≡ text.old.items ++ place_text words.now at) }
{
    push_number(alloc, words, u64::from(at), text)
}

/// Writes which rule a code breaks.
fn push_check(alloc: Global, why: CheckErr, text: &mut Vec<u8>) -> Result<(), AllocError>
    ensures { OnOk result (text.new.items ≡ text.old.items ++ check_text why) }
{
    match why {
        CheckErr::Size => text.extend_from_slice(b"size"),
        CheckErr::Shape { at } => push_place(alloc, "shape ", at, text),
        CheckErr::Cell { at } => push_place(alloc, "cell ", at, text),
        CheckErr::Target { at } => push_place(alloc, "target ", at, text),
        CheckErr::Back { at } => push_place(alloc, "back ", at, text),
        CheckErr::Fall => text.extend_from_slice(b"fall"),
    }
}

/// Writes why bytes are no image. Want of memory has no words: it is passed on.
fn push_image(alloc: Global, why: ImageErr, text: &mut Vec<u8>) -> Result<(), AllocError>
    ensures text { OnOk result (text.new.items ≡ text.old.items ++ image_text why) }
    ensures memory { OnOk result (why ≢ Memory) }
{
    match why {
        ImageErr::Magic => text.extend_from_slice(b"magic"),
        ImageErr::Version { n } => push_place(alloc, "version ", u32::from(n), text),
        ImageErr::Length => text.extend_from_slice(b"length"),
        ImageErr::Digest => text.extend_from_slice(b"digest"),
        ImageErr::Instr { at } => push_place(alloc, "instr ", at, text),
        ImageErr::Check(why) => {
            text.extend_from_slice(b"check ")?;
            push_check(alloc, why, text)
        }
        ImageErr::Memory => Err(AllocError),
    }
}

/// What is due for bytes that are no image.
pub(crate) fn bad_image(alloc: Global, why: ImageErr) -> Result<Outcome, AllocError>
    ensures due { IfOk result (λ o. o ≡ bad_image (image_text why)) }
    ensures memory { OnOk result (why ≢ Memory) }
{
    let mut text = Vec::new(alloc);
    text.extend_from_slice(b"bad image ")?;
    push_image(alloc, why, &mut text)?;
    text.push(b'\n')?;
    Ok(Outcome {
        status: Status::BadImage,
        text,
    })
}

/// Writes words and a name.
fn push_name(words: &str, name: &NameText, text: &mut Vec<u8>) -> Result<(), AllocError>
    ensures { OnOk result (text.new.items ≡ text.old.items ++ (words.now ++ name.now)) }
{
    text.extend_from_slice(words.as_bytes())?;
    text.extend_from_slice(name.get().as_bytes())
}

/// Writes why a text is no package. Want of memory has no words: it is passed on.
fn push_read(alloc: Global, why: ReadErr, text: &mut Vec<u8>) -> Result<(), AllocError>
    ensures text { OnOk result (text.new.items ≡ text.old.items ++ read_text why) }
    ensures memory { OnOk result (why ≢ fault.Memory) }
{
    match why {
        ReadErr::Lex { at } => push_place(alloc, "lex ", at, text),
        ReadErr::Number { at } => push_place(alloc, "number ", at, text),
        ReadErr::Deep { piece } => push_place(alloc, "deep ", piece, text),
        ReadErr::Section { piece } => push_place(alloc, "section ", piece, text),
        ReadErr::Names { count } => push_place(alloc, "names ", count, text),
        ReadErr::Twice { name } => push_name("twice ", &name, text),
        ReadErr::Entries { piece, count } => {
            push_place(alloc, "entries ", piece, text)?;
            push_place(alloc, " ", count, text)
        }
        ReadErr::Undeclared { name, piece } => {
            push_name("undeclared ", &name, text)?;
            push_place(alloc, " ", piece, text)
        }
        ReadErr::Memory => Err(AllocError),
    }
}

/// What is due for a text that is no package.
fn bad_text(alloc: Global, why: ReadErr) -> Result<Outcome, AllocError>
    ensures due { IfOk result (λ o. o ≡ refused (read_text why)) }
    ensures memory { OnOk result (why ≢ fault.Memory) }
{
    let mut text = Vec::new(alloc);
    text.extend_from_slice(b"refused ")?;
    push_read(alloc, why, &mut text)?;
    text.push(b'\n')?;
    Ok(Outcome {
        status: Status::Refused,
        text,
    })
}

/// Writes words, and the name with a number from 0.
fn push_name_at(
    words: &str,
    names: &[String],
    number: u32,
    text: &mut Vec<u8>,
) -> Result<(), AllocError>
    ensures { OnOk result (text.new.items ≡
        text.old.items ++ (words.now ++ name_at (map string_bytes names.now) number)) }
{
    text.extend_from_slice(words.as_bytes())?;
    match names.get(number as usize) {
        Some(name) => text.extend_from_slice(name.as_bytes()),
        None => Ok(()),
    }
}

/// Writes names, each behind a space.
fn push_more_names(names: &[String], text: &mut Vec<u8>) -> Result<(), AllocError>
    ensures { OnOk result (text.new.items ≡
        text.old.items ++ flat_map (λ name. codes " " ++ name) (map string_bytes names.now)) }
{
    for name in names {
        text.extend_from_slice(b" ")?;
        text.extend_from_slice(name.as_bytes())?;
    }
    Ok(())
}

/// Writes names with a space between them.
fn push_names(names: &[String], text: &mut Vec<u8>) -> Result<(), AllocError>
    ensures { OnOk result (text.new.items ≡
        text.old.items ++ joined_by (codes " ") (map string_bytes names.now)) }
{
    match names {
        [] => Ok(()),
        [first, more @ ..] => {
            text.extend_from_slice(first.as_bytes())?;
            push_more_names(more, text)
        }
    }
}

/// Writes where an expression is over.
fn push_wide(names: &Names, place: Place, text: &mut Vec<u8>) -> Result<(), AllocError>
    ensures { OnOk result (text.new.items ≡ text.old.items ++ wide_text names.now place) }
{
    match place {
        Place::Init => text.extend_from_slice(b"init"),
        Place::Inv => text.extend_from_slice(b"inv"),
        Place::Safe => text.extend_from_slice(b"safe"),
        Place::Ctrl => text.extend_from_slice(b"ctrl"),
        Place::Flow(state) => push_name_at("flow ", names.states.get(), state, text),
        Place::Time => text.extend_from_slice(b"time"),
        Place::Slack(state) => push_name_at("slack ", names.states.get(), state, text),
        Place::Domain => text.extend_from_slice(b"domain"),
        Place::Fallback(control) => push_name_at("fallback ", names.controls.get(), control, text),
    }
}

/// Writes that an obligation has too many cases.
fn push_cases(alloc: Global, part: Part, count: u64, text: &mut Vec<u8>) -> Result<(), AllocError>
    ensures { OnOk result (text.new.items ≡ text.old.items ++
        (codes "cases " ++ part_text part ++ place_text (codes " ") count)) }
{
    text.extend_from_slice(b"cases ")?;
    text.extend_from_slice(part_text(part).as_bytes())?;
    push_number(alloc, " ", count, text)
}

/// Writes why a package has no monitors or no obligations. Want of memory has no words: it is passed on.
fn push_monitor(
    alloc: Global,
    names: &Names,
    why: &MonErr,
    text: &mut Vec<u8>,
) -> Result<(), AllocError>
    ensures text { OnOk result (text.new.items ≡ text.old.items ++ monitor_text names.now why.now) }
    ensures memory { OnOk result (why.now ≢ monitor.Memory) }
{
    match why {
        MonErr::Wide { place } => {
            text.extend_from_slice(b"wide ")?;
            push_wide(names, *place, text)
        }
        MonErr::Paths { count } => push_number(alloc, "paths ", *count, text),
        MonErr::Hidden { name } => push_name("hidden ", name, text),
        MonErr::NotLinear { name } => push_name("notlinear ", name, text),
        MonErr::Cycle { names } => {
            text.extend_from_slice(b"cycle ")?;
            push_names(names.get(), text)
        }
        MonErr::Fraction { name } => push_name("fraction ", name, text),
        MonErr::Cases { part, count } => push_cases(alloc, *part, *count, text),
        MonErr::Memory => Err(AllocError),
    }
}

/// Writes why a certificate is wrong. Want of memory has no words: it is passed on.
fn push_wrong(
    alloc: Global,
    names: &Names,
    why: &CertErr,
    text: &mut Vec<u8>,
) -> Result<(), AllocError>
    ensures text { OnOk result (text.new.items ≡ text.old.items ++ wrong_text names.now why.now) }
    ensures memory { OnOk result (why.now ≢ cert.Memory) }
{
    match why {
        CertErr::Label => text.extend_from_slice(b"label"),
        CertErr::NotStrict => text.extend_from_slice(b"notstrict"),
        CertErr::Wide => text.extend_from_slice(b"wide"),
        CertErr::NotZero {
            monomial,
            coefficient,
        } => {
            text.extend_from_slice(b"notzero ")?;
            push_monomial(variable_names(alloc, names)?.get(), monomial, text)?;
            text.extend_from_slice(b" ")?;
            text.extend_from_slice(coefficient.to_string(alloc)?.as_bytes())
        }
        CertErr::Memory => Err(AllocError),
    }
}

/// Writes why the certificate of a case isn't taken.
fn push_why(
    alloc: Global,
    names: &Names,
    why: &CertWhy,
    text: &mut Vec<u8>,
) -> Result<(), AllocError>
    ensures { OnOk result (text.new.items ≡ text.old.items ++ why_text names.now why.now) }
{
    match why {
        CertWhy::Missing => text.extend_from_slice(b"missing"),
        CertWhy::Wrong(why) => push_wrong(alloc, names, why, text),
    }
}

/// What is due for a package with these names that has no monitors or no obligations.
fn bad_model(alloc: Global, names: &Names, why: &MonErr) -> Result<Outcome, AllocError>
    ensures due { IfOk result (λ o. o ≡ refused (monitor_text names.now why.now)) }
{
    let mut text = Vec::new(alloc);
    text.extend_from_slice(b"refused ")?;
    push_monitor(alloc, names, why, &mut text)?;
    text.push(b'\n')?;
    Ok(Outcome {
        status: Status::Refused,
        text,
    })
}

/// What is due for a package with these names whose certificate of a case isn't taken.
fn bad_certificate(
    alloc: Global,
    names: &Names,
    part: Part,
    number: u32,
    why: &CertWhy,
) -> Result<Outcome, AllocError>
    ensures { IfOk result (λ o. o ≡ refused (cert_text names.now part number why.now)) }
{
    let mut text = Vec::new(alloc);
    text.extend_from_slice(b"refused cert ")?;
    text.extend_from_slice(part_text(part).as_bytes())?;
    push_place(alloc, " ", number, &mut text)?;
    text.push(b' ')?;
    push_why(alloc, names, why, &mut text)?;
    text.push(b'\n')?;
    Ok(Outcome {
        status: Status::Refused,
        text,
    })
}

/// Reads a text that is a package once more: only want of memory refuses it.
fn read_again(alloc: Global, text: &[u8]) -> Result<Package, ReadErr>
    requires short { length text.now ≤ package_limit }
    requires is { (pkg : Package) × IsPackage text.now pkg }
    ensures is { IfOk result (λ pkg. IsPackage text.now pkg) }
    ensures memory { IfErr result (λ why. why ≡ fault.Memory) }
{
    one_reading();
    read_package(alloc, text)
}

/// The names of a package; the rest of it is let go.
fn names_of(pkg: Package) -> Names
    ensures { result ≡ pkg.names }
{
    pkg.names
}

/// The names of the package that a text is.
fn read_names(alloc: Global, text: &[u8]) -> Result<Names, AllocError>
    requires short { length text.now ≤ package_limit }
    requires is { (pkg : Package) × IsPackage text.now pkg }
    ensures { IfOk result (λ names. (pkg : Package) × IsPackage text.now pkg × (names ≡ pkg.names)) }
{
    match read_again(alloc, text) {
        Ok(pkg) => Ok(names_of(pkg)),
        Err(_) => Err(AllocError),
    }
}

/// What is due for a text that is refused. A refusal that tells of a package is printed over its names,
/// for which the text is read once more.
pub(crate) fn bad_package(alloc: Global, text: &[u8], why: Refusal) -> Result<Outcome, AllocError>
    requires short { length text.now ≤ package_limit }
    requires named { IsNamed text.now why }
    ensures due { IfOk result (λ o. IsRefusal text.now why o) }
    ensures memory { OnOk result (why ≢ refusal.Memory) }
{
    match why {
        Refusal::Read(why) => bad_text(alloc, why),
        Refusal::Monitor(why) => bad_model(alloc, &read_names(alloc, text)?, &why),
        Refusal::Cert { part, number, why } => {
            bad_certificate(alloc, &read_names(alloc, text)?, part, number, &why)
        }
        Refusal::Extra => line(alloc, Status::Refused, "refused cert extra\n"),
        Refusal::Memory => Err(AllocError),
    }
}

/// What is due for a package whose sandbox passes a limit of codes. Want of memory has no words: it is passed
/// on.
pub(crate) fn bad_size(alloc: Global, why: GenErr) -> Result<Outcome, AllocError>
    ensures due { IfOk result (λ o. o ≡ refused (size_text why)) }
    ensures memory { OnOk result (why ≢ gen.Memory) }
{
    let mut text = Vec::new(alloc);
    match why {
        GenErr::Long { count } => push_number(alloc, "refused long ", count, &mut text)?,
        GenErr::Cells { count } => push_number(alloc, "refused cells ", count, &mut text)?,
        GenErr::Memory => return Err(AllocError),
    }
    text.push(b'\n')?;
    Ok(Outcome {
        status: Status::Refused,
        text,
    })
}

/// A line that says the same each time, and its status.
pub(crate) fn line(alloc: Global, status: Status, text: &str) -> Result<Outcome, AllocError>
    requires { IsPrinted status }
    ensures { IfOk result (λ o. o ≡ record { status = status; text = text.now }) }
{
    let mut line = Vec::new(alloc);
    line.extend_from_slice(text.as_bytes())?;
    Ok(Outcome { status, text: line })
}
