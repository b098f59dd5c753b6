//! Laws of the order of objects, and of texts that have objects in it.

ghost use Rattle.std.specs.Prelude.{◌≡◌, ℕ, List, Option, Some, map, slice_get};
ghost use Rattle.std.specs.List.{range_with_len};
ghost use Rattle.gc_model.specs.Table.{Table};
ghost use Rattle.gc_image.specs.Images.{ImagesText};
ghost use Rattle.gc_image_write.specs.InTurn.{ImagesInTurn};
ghost use Rattle.gc_image_write.specs.Order.{IsOrder};
ghost use Rattle.gc_image_write.specs.Renaming.{AreAllReached, IsWithin, Renames};
ghost use Rattle.gc_image_write.specs.Visiting.{Graph, IsNumbering};

/// The rule determines the order: two orders of one graph are the same.
pub fn an_order_is_determined()
    ensures { (graph : Graph) (count : ℕ) (order other : List ℕ) → IsNumbering graph count order → IsNumbering graph count other → order ≡ other }
{}

/// The rule goes with any renaming. Where each object of a graph has another number in another graph, with the same references and
/// globals there, and the globals reach all objects, the order under the other numbers is the order of the other graph.
pub fn an_order_goes_with_a_renaming()
    ensures { (graph other : Graph) (count : ℕ) (name : ℕ → ℕ) → Renames graph other count name → IsWithin graph count
        → AreAllReached graph count → (order : List ℕ) → IsNumbering graph count order → IsNumbering other count (map name order) }
{}

/// Objects that were numbered by the rule keep their numbers: where each gets its place in the order as its number, the order is
/// 0, 1, 2 and so on.
pub fn an_order_stays()
    ensures { (graph other : Graph) (count : ℕ) (name : ℕ → ℕ) → Renames graph other count name → IsWithin graph count
        → AreAllReached graph count → (early : ℕ → ℕ → Option ℕ) (order : List ℕ) → IsOrder early count order
        → ((n x : ℕ) → slice_get order n ≡ Some x → name x ≡ n) → IsNumbering graph count order
        → IsNumbering other count (range_with_len 0 count) }
{}

/// A table has one text whose objects stand in the order of the rule. So what is written of a table that was read from such a text,
/// with its objects in that order, is that text.
pub fn a_text_in_turn_comes_back()
    ensures { (t t' : Table ℕ) (bytes again : List ℕ) → ImagesInTurn t bytes → ImagesText t' bytes → ImagesInTurn t' again → again ≡ bytes }
{}
