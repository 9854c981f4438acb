//! Writing an image.
ghost use Rattle.std.specs.Prelude.{◌≡◌, ◌++◌, Ok, IfOk, OnOk};
ghost use Rattle.std.specs.List.{flat_map};
ghost use Rattle.vp_isa.specs.Encoding.{encoded};
ghost use Rattle.vp_isa.specs.Valid.{IsValid};
ghost use Rattle.vp_image.specs.Image.{image, image_read, body, AreInstrs};

use crate::laws::written_is_read;
use sha2::{Digest, Sha256};
use std::alloc::{AllocError, Global};
use vp_isa::{Checked, Code, Instr, encode};
use vp_words::Counts;

/// Writes the instructions, 12 bytes each.
fn push_instrs(out: &mut Vec<u8>, instrs: &[Instr]) -> Result<(), AllocError>
    ensures bytes { OnOk result (out.new.items ≡ out.old.items ++ flat_map encoded instrs.now) }
    ensures fit { OnOk result (AreInstrs instrs.now) }
{
    for instr in instrs {
        out.extend_from_slice(&encode(instr))?;
    }
    Ok(())
}

/// The bytes before the last digest.
fn write_body(alloc: Global, code: &Code, package_digest: &[u8; 32]) -> Result<Vec<u8>, AllocError>
    requires { IsValid code.now }
    ensures bytes { IfOk result (λ bytes. bytes.items ≡ body code.now package_digest.now) }
    ensures fit { OnOk result (AreInstrs code.now.instrs) }
{
    let Counts {
        params,
        states,
        controls,
    } = code.counts;
    let instrs = code.instrs.get();
    let mut bytes = Vec::new(alloc);
    bytes.extend_from_slice(b"VPHY")?;
    bytes.extend_from_slice(&1u16.to_be_bytes())?;
    bytes.extend_from_slice(&[params, states, controls])?;
    bytes.extend_from_slice(&(code.cells as u16).to_be_bytes())?;
    bytes.extend_from_slice(&code.head.to_be_bytes())?;
    bytes.extend_from_slice(&(instrs.len() as u32).to_be_bytes())?;
    push_instrs(&mut bytes, instrs)?;
    bytes.extend_from_slice(package_digest)?;
    Ok(bytes)
}

/// The bytes of the image of code, with the SHA-256 digest of the text of its package.
pub fn write_image(
    alloc: Global,
    code: &Checked,
    package_digest: &[u8; 32],
) -> Result<Vec<u8>, AllocError>
    ensures bytes { IfOk result (λ bytes. bytes.items ≡ image code.now package_digest.now) }
    // What is written is read back as that code and digest.
    ensures read_back { IfOk result (λ bytes. image_read bytes.items ≡ Ok (code.now, package_digest.now)) }
{
    written_is_read();
    let mut bytes = write_body(alloc, code.code(), package_digest)?;
    let digest = Sha256::digest(bytes.as_slice());
    bytes.extend_from_slice(&digest)?;
    Ok(bytes)
}
