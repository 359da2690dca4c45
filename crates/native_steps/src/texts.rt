//! The laws of an accepted image's text, in one.

ghost use Rattle.image_check.specs.Image.{Image};
ghost use Rattle.image_check.specs.Accepts.{IsAccepted};
ghost use Rattle.native_steps.specs.TextLaws.{TextLaws};

use image_laws::{fetching, goes_on, outside_sites, places};

/// What the laws of an accepted image say of an instruction of its text.
pub fn texts()
    ensures { (image : Image) → IsAccepted image → TextLaws image }
{
    places();
    outside_sites();
    fetching();
    goes_on();
}
