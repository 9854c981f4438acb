//! Laws of images: the contracts of these functions say them.
ghost use Rattle.std.specs.Prelude.{◌≡◌, List, ℕ, Ok};
ghost use Rattle.vp_isa.specs.declared.code.Code.{Code};
ghost use Rattle.vp_image.specs.Image.{image, image_read, IsContent};

use vp_isa::laws::bytes_are_one_instruction;

/// What was written is read back: the image of checked code is read as that code and digest.
pub fn written_is_read()
    ensures { (code : Code) (digest : List ℕ) → IsContent code digest → image_read (image code digest) ≡ Ok (code, digest) }
{
    bytes_are_one_instruction();
}

/// No two codes, and no two digests of packages, have the same image.
pub fn images_differ()
    ensures { (code other : Code) (digest other_digest : List ℕ) → IsContent code digest → IsContent other other_digest →
        image code digest ≡ image other other_digest → (code ≡ other) × (digest ≡ other_digest) }
{
    written_is_read();
}
