//! Images: checked code as bytes, with the digest of its package and a digest of the whole.
#![tactic(auto)]

mod image;
pub mod laws;
mod reading;
#[cfg(test)]
mod tests;
mod writing;

pub use image::ImageErr;
pub use reading::read_image;
pub use writing::write_image;
