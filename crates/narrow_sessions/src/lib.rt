#![tactic(auto)]
// The narrow kind of a session: its image, and its turns to the wide kind and back, by value and on images.
mod image;
mod image_turns;
mod level_turns;
mod turning;

pub use image::{NARROW_IMAGE, load_narrow, save_narrow};
pub use image_turns::{narrow_image, widen_image};
pub use turning::{narrow, widen};
