//! Laws of lists.

ghost use Rattle.std.specs.Prelude.{◌≡◌, ◌++◌, ℕ, ℤ, List, Option};
ghost use Rattle.gc_types.specs.declared.kind.Layouts.{Layouts};
ghost use Rattle.gc_model.specs.Allocation.{MayHave};
ghost use Rattle.gc_model.specs.Stores.{StoreView};
ghost use Rattle.gc_model.specs.Table.{Owned, Table};
ghost use Rattle.gc_model.specs.Values.{Reference};
ghost use Rattle.gc_model.specs.Accounts.{Account, HoldsAccount};
ghost use Rattle.gc_store.specs.Stores.{IsSameStore};
ghost use Rattle.gc_values.specs.declared.root.GcRootIndex.{GcRootIndex};
ghost use Rattle.gc_lists.specs.Answers.{AreApart, HasNewRoot, LeavesVersion, Releases};
ghost use Rattle.gc_lists.specs.Constants.{KeepsConstants};
ghost use Rattle.gc_lists.specs.Frames.{ChangesObjects, ChangesOwned, KeepsLimit};
ghost use Rattle.gc_lists.specs.Lists.{IsList, IsListOf};
ghost use Rattle.gc_lists.specs.Versions.{StandsForListOf, VersionNames};
ghost use Rattle.gc_lists.specs.declared.kit.Kit.{Kit};

/// Where what is constant in a table stays, each list stays that list, and its cells stay of their type.
pub fn lists_stay<D: Drop>()
    ensures lists { (t u : Table D) (r : Reference) (xs : List ℤ) → KeepsConstants t u → IsList t.types t.objects r xs → IsList u.types u.objects r xs }
    ensures of_type { (t u : Table D) (r : Reference) (ty : ℕ) (xs : List ℤ) → KeepsConstants t u → IsListOf t.types t.objects ty xs r
        → IsListOf u.types u.objects ty xs r }
{}

/// What calls on lists and maps change leaves all that is constant.
pub fn calls_keep_constants<D: Drop>()
    ensures roots { (t u : Table D) (owned : List Owned) → ChangesOwned t owned u → KeepsConstants t u }
    ensures objects { (limit : Option ℕ) (kit : Kit) (most : ℕ) (t u : Table D) (owned : List Owned) → ChangesObjects limit kit most t owned u
        → KeepsConstants t u }
{}

/// Calls under one limit, one behind the other, keep that limit; and where it granted the pages that the heap had, it grants
/// those that it has then.
pub fn limits_are_kept<D: Drop>()
    ensures composes { (limit : Option ℕ) (t u v : Table D) → u.first ≡ t.first → KeepsLimit limit t u → KeepsLimit limit u v → KeepsLimit limit t v }
    ensures within { (limit : Option ℕ) (t u : Table D) → KeepsLimit limit t u → MayHave limit t.pages → MayHave limit u.pages }
{}

/// A version stands for the same list as long as its owned root is live, where what is constant stays: also in a store whose
/// heap was collected, and where more owned roots were made.
pub fn versions_stay<D: Drop>()
    ensures { (s new : StoreView D) (t u : Table D) (more : List Owned) (version : Option GcRootIndex) (ty : ℕ) (xs : List ℤ)
        → IsSameStore s new → KeepsConstants t u → u.owned ≡ t.owned ++ more → StandsForListOf s t version ty xs → StandsForListOf new u version ty xs }
{}

/// A version that is answered is apart from each that stood, and giving a version up leaves what every other one names.
pub fn versions_are_apart<D: Drop>()
    ensures apart { (layouts : Layouts) (s new : StoreView D) (t : Table D) (a : Account) (version made : Option GcRootIndex) (r : Reference)
        → HoldsAccount layouts s t a → IsSameStore s new → VersionNames s t version r → HasNewRoot new t made → AreApart version made }
    ensures others { (layouts : Layouts) (s new : StoreView D) (t : Table D) (a : Account) (gone version : Option GcRootIndex) (r : Reference)
        → HoldsAccount layouts s t a → IsSameStore s new → Releases layouts s t a gone new → AreApart gone version → VersionNames s t version r
        → LeavesVersion layouts t a version r new }
{}
