//! Laws of images: each is the contract of a function that does nothing.
ghost use Rattle.std.specs.Prelude.{◌≡◌, true};
ghost use Rattle.hc_model.specs.Beginnings.{may_begin};
ghost use Rattle.hc_contents.specs.PlainContents.{plain_contents};
ghost use Rattle.hc_image.specs.Images.{HasImage, image_of};
ghost use Rattle.hc_image.specs.Laws.{SpellContentsApart, AreNoParts, AreWritten};
ghost use Rattle.hc_image.specs.Spelled.{SpellsImage};

use hc_contents::Contents;
use hc_rules::Limits;

/// A text is the image of one contents at most, no image is a first part of another, and what has an
/// image has the one that is written.
pub fn images_spell_contents_apart()
    ensures apart { SpellContentsApart }
    ensures no_parts { AreNoParts }
    ensures written { AreWritten }
{}

/// Contents with which a store may begin have an image: what `write_image` makes of them is one, so
/// that `read_image` gives them back as they are, good as they were.
pub fn contents_have_images(contents: &Contents, limits: Limits)
    ensures has { may_begin limits (plain_contents contents.entry.now) ≡ true
        → HasImage (plain_contents contents.entry.now) }
    ensures spelled { may_begin limits (plain_contents contents.entry.now) ≡ true
        → SpellsImage (image_of (plain_contents contents.entry.now))
        (plain_contents contents.entry.now) }
{
    let _limits = limits;
    let _now = contents.now;
}
