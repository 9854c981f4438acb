//! Reading an image.
ghost use Rattle.std.specs.Prelude.{◌≡◌, ◌+◌, ◌*◌, ◌≤◌, List, ℕ, length, drop, None, Ok, IfOk, IsErrOf};
ghost use Rattle.vp_isa.specs.declared.code.Code.{Code};
ghost use Rattle.vp_isa.specs.Reading.{short_at, long_at};
ghost use Rattle.vp_isa.specs.Valid.{refusal};
ghost use Rattle.vp_image.specs.declared.image.ImageErr.TheVariants.{Memory};
ghost use Rattle.vp_image.specs.Image.{image, image_read, other_version, other_length, other_digest, package_digest, instrs_read, code_of, code_read, count_of, image_length, IsContent, IsFramed, Gives};

use crate::image::ImageErr;
use crate::laws::written_is_read;
use sha2::{Digest, Sha256};
use std::alloc::Global;
use vp_isa::{Checked, Code, Instrs, decode};
use vp_words::Counts;

/// The number of the 2 bytes from a place on.
fn u16_at(bytes: &[u8], at: usize) -> u16
    requires { at + 2 ≤ length bytes.now }
    ensures { result ≡ short_at at bytes.now }
{
    let (two, _) = bytes[at..].split_first_chunk::<2>().unwrap();
    u16::from_be_bytes(*two)
}

/// The number of the 4 bytes from a place on.
fn u32_at(bytes: &[u8], at: usize) -> u32
    requires { at + 4 ≤ length bytes.now }
    ensures { result ≡ long_at at bytes.now }
{
    let (four, _) = bytes[at..].split_first_chunk::<4>().unwrap();
    u32::from_be_bytes(*four)
}

/// Whether the version is there and isn't 1.
fn has_other_version(bytes: &[u8]) -> bool
    ensures { result ≡ other_version bytes.now }
{
    bytes.len() >= 6 && u16_at(bytes, 4) != 1
}

/// Whether there are fewer or more bytes than the number of instructions asks for.
fn has_other_length(bytes: &[u8]) -> bool
    ensures { result ≡ other_length bytes.now }
{
    bytes.len() < 19 || bytes.len() as u64 != 19 + 12 * u64::from(u32_at(bytes, 15)) + 64
}

/// Whether the last 32 bytes aren't the digest of those before.
fn has_other_digest(bytes: &[u8]) -> bool
    requires { 32 ≤ length bytes.now }
    ensures { result ≡ other_digest bytes.now }
{
    let (sealed, digest) = bytes.split_last_chunk::<32>().unwrap();
    *digest != Sha256::digest(sealed)
}

/// The digest of the package, which stands before the last 32 bytes.
fn package_digest(bytes: &[u8]) -> [u8; 32]
    requires { 64 ≤ length bytes.now }
    ensures { result ≡ package_digest bytes.now }
{
    let (digest, _) = bytes[bytes.len() - 64..].split_first_chunk::<32>().unwrap();
    *digest
}

/// So many instructions of 12 bytes.
fn read_instrs(alloc: Global, count: u32, bytes: &[u8]) -> Result<Instrs, ImageErr>
    requires { 12 * count ≤ length bytes.now }
    ensures { Gives result (instrs_read count 0 bytes.now) }
{
    let mut instrs = Vec::new(alloc);
    let mut rest = bytes;
    for at in 0..count {
        let (first, more) = rest.split_first_chunk::<12>().unwrap();
        let Some(instr) = decode(first) else {
            return Err(ImageErr::Instr { at });
        };
        instrs.push(instr)?;
        rest = more;
    }
    Ok(Instrs::of(instrs))
}

/// The code of the header and these instructions.
fn code_from(bytes: &[u8], instrs: Instrs) -> Code
    requires { 19 ≤ length bytes.now }
    ensures { result ≡ code_of bytes.now instrs }
{
    Code {
        counts: Counts {
            params: bytes[6],
            states: bytes[7],
            controls: bytes[8],
        },
        cells: u32::from(u16_at(bytes, 9)),
        head: u32_at(bytes, 11),
        instrs,
    }
}

/// The code of the header and the instructions, checked, and the digest of the package.
fn read_code(alloc: Global, bytes: &[u8]) -> Result<(Checked, [u8; 32]), ImageErr>
    requires { length bytes.now ≡ image_length (count_of bytes.now) }
    ensures { Gives result (code_read bytes.now (instrs_read (count_of bytes.now) 0 (drop 19 bytes.now))) }
{
    let instrs = read_instrs(alloc, u32_at(bytes, 15), &bytes[19..])?;
    match Checked::of(code_from(bytes, instrs)) {
        Ok(code) => Ok((code, package_digest(bytes))),
        Err(e) => Err(ImageErr::Check(e)),
    }
}

/// The checked code and the digest of the package, where the bytes are an image.
#[tactic(auto, unfolding(crate::specs::Image::image_read))]
fn read_whole(alloc: Global, bytes: &[u8]) -> Result<(Checked, [u8; 32]), ImageErr>
    ensures exact { Gives result (image_read bytes.now) }
    ensures memory { IsErrOf result Memory → IsFramed bytes.now }
{
    if !bytes.starts_with(b"VPHY") {
        return Err(ImageErr::Magic);
    }
    if has_other_version(bytes) {
        return Err(ImageErr::Version {
            n: u16_at(bytes, 4),
        });
    }
    if has_other_length(bytes) {
        return Err(ImageErr::Length);
    }
    if has_other_digest(bytes) {
        return Err(ImageErr::Digest);
    }
    read_code(alloc, bytes)
}

/// Reads the bytes of an image: the checked code, and the digest of its package. The error is the
/// first that holds of `Magic`, `Version`, `Length`, `Digest`, `Instr` and `Check`; `Memory` can come
/// in place of the last two, or where the bytes are an image.
pub fn read_image(alloc: Global, bytes: &[u8]) -> Result<(Checked, [u8; 32]), ImageErr>
    // The answer is the definition's.
    ensures exact { Gives result (image_read bytes.now) }
    // Memory can run out only where the header and the last digest are those of an image.
    ensures memory { IsErrOf result Memory → IsFramed bytes.now }
    // What is read is an image, of code that keeps the rules.
    ensures sound { IfOk result (λ read. (bytes.now ≡ image read.0 read.1) × (refusal read.0 ≡ None)) }
    // Each image of such code is read.
    ensures complete { (code : Code) (digest : List ℕ) → IsContent code digest → bytes.now ≡ image code digest → Gives result (Ok (code, digest)) }
{
    written_is_read();
    read_whole(alloc, bytes)
}
