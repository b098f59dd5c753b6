//! Laws of heap images.

ghost use Rattle.std.specs.Prelude.{ℕ, List};
ghost use Rattle.gc_model.specs.Table.{Table};
ghost use Rattle.gc_image.specs.Alike.{AreAlike};
ghost use Rattle.gc_image.specs.Images.{ImagesText};

/// Two tables of which one text is an image are alike: they have the same types and globals, and the same graph up to one
/// renaming. So an image that one heap saves and another loads, of whichever kind, keeps these.
pub fn images_of_one_text_are_alike()
    ensures { (t t' : Table ℕ) (bytes : List ℕ) → ImagesText t bytes → ImagesText t' bytes → AreAlike t t' }
{}
