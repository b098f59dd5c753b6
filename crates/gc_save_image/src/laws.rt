//! Laws of images that are saved.

ghost use Rattle.std.specs.Prelude.{◌≡◌, ℕ, List};
ghost use Rattle.gc_model.specs.Table.{Table};
ghost use Rattle.gc_image.specs.Images.{ImagesText};
ghost use Rattle.gc_image_write.specs.Plain.{ArePlain};
ghost use Rattle.gc_save_image.specs.Saves.{IsTangled, Saved};

use gc_image::laws::images_of_one_text_are_alike;
use gc_image_write::a_text_in_turn_comes_back;

/// Saving what was loaded gives the same text: where bytes were saved of one table and are the text of an image of another, as
/// loading them says, what is saved of the other is these bytes.
pub fn what_was_loaded_is_saved_as_the_same_text()
    ensures { (t t' : Table ℕ) (bytes again : List ℕ) → Saved t bytes → ImagesText t' bytes → Saved t' again → again ≡ bytes }
{
    a_text_in_turn_comes_back();
}

/// What was loaded may be saved: where bytes were saved of one table and are the text of an image of another, the types of the
/// other are plain and its objects can be made in some order. So only room for roots and memory may be wanting.
pub fn what_was_loaded_may_be_saved()
    ensures plain { (t t' : Table ℕ) (bytes : List ℕ) → Saved t bytes → ImagesText t' bytes → ArePlain t'.types }
    ensures apart { (t : Table ℕ) (bytes : List ℕ) → ImagesText t bytes → ¬ IsTangled t }
{
    images_of_one_text_are_alike();
}
