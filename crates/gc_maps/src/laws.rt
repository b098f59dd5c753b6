//! Laws of maps.

ghost use Rattle.std.specs.Prelude.{◌≡◌, [], ◌∷◌, ◌++◌, ℕ, List, Option};
ghost use Rattle.std.specs.FinMap as finite;
ghost use Rattle.gc_model.specs.Reach.{HasNumber, Reached};
ghost use Rattle.gc_model.specs.Stores.{StoreView};
ghost use Rattle.gc_model.specs.Table.{Owned, Table};
ghost use Rattle.gc_model.specs.Values.{Reference};
ghost use Rattle.gc_store.specs.Stores.{IsSameStore};
ghost use Rattle.gc_values.specs.declared.root.GcRootIndex.{GcRootIndex};
ghost use Rattle.gc_lists.specs.Constants.{KeepsConstants};
ghost use Rattle.gc_maps.specs.Maps.{IntMap, IsMap, StandsForMapOf};

/// Where what is constant in a table stays, each map stays that map, and its nodes stay of their type.
pub fn maps_stay<D: Drop>()
    ensures { (t u : Table D) (r : Reference) (ty : ℕ) (m : IntMap) → KeepsConstants t u → IsMap t.types t.objects ty m r → IsMap u.types u.objects ty m r }
{}

/// What a map's reference reaches is as many objects as the map has entries: its nodes.
pub fn maps_reach_their_nodes<D: Drop>()
    ensures { (t : Table D) (r : Reference) (ty : ℕ) (m : IntMap) → IsMap t.types t.objects ty m r
        → HasNumber (Reached t.objects (r ∷ [])) (finite.len m) }
{}

/// A version stands for the same map as long as its owned root is live, where what is constant stays: also in a store whose
/// heap was collected, and where more owned roots were made.
pub fn map_versions_stay<D: Drop>()
    ensures { (s new : StoreView D) (t u : Table D) (more : List Owned) (version : Option GcRootIndex) (ty : ℕ) (m : IntMap)
        → IsSameStore s new → KeepsConstants t u → u.owned ≡ t.owned ++ more → StandsForMapOf s t version ty m → StandsForMapOf new u version ty m }
{}
