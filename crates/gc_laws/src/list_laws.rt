//! No command changes a list or a map of heap objects: what is constant stays through scripts.

ghost use Rattle.std.specs.Prelude.{◌≡◌, ℕ, ℤ, List, Option, Some};
ghost use Rattle.gc_types.specs.declared.kind.Layouts.{Layouts};
ghost use Rattle.gc_commands.specs.declared.command.Command.{Command};
ghost use Rattle.gc_commands.specs.declared.reply.Reply.{Reply};
ghost use Rattle.gc_model.specs.Holds.{HoldsTable};
ghost use Rattle.gc_model.specs.OwnedRoots.{owned_reference};
ghost use Rattle.gc_model.specs.Stores.{StoreView};
ghost use Rattle.gc_model.specs.Table.{Table, write};
ghost use Rattle.gc_model.specs.Values.{Reference, Value};
ghost use Rattle.gc_values.specs.declared.root.GcRootIndex.{GcRootIndex};
ghost use Rattle.gc_lists.specs.Constants.{IsMutable, KeepsConstants};
ghost use Rattle.gc_lists.specs.Lists.{IsList};
ghost use Rattle.gc_lists.specs.Versions.{StandsForListOf, VersionNames};
ghost use Rattle.gc_maps.specs.Maps.{IntMap, IsMap, StandsForMapOf};
ghost use Rattle.gc_script.specs.Run.{Run};
ghost use Rattle.gc_script.specs.State.{State};
ghost use Rattle.gc_script.specs.Steps.{Step};

/// Where a command leads from a state of the table to another, whatever it replies, all that is constant is as it was, and so
/// each list of the first table is that list in the second, and each map that map.
pub fn steps_keep_lists()
    ensures constants { (layouts : Layouts) (limit : Option ℕ) (s u : State) (c : Command) (answer : Reply) → Step layouts limit s c answer u
        → KeepsConstants s.table u.table }
    ensures lists { (layouts : Layouts) (limit : Option ℕ) (s u : State) (c : Command) (answer : Reply) (r : Reference) (xs : List ℤ)
        → Step layouts limit s c answer u → IsList s.table.types s.table.objects r xs → IsList u.table.types u.table.objects r xs }
    ensures maps { (layouts : Layouts) (limit : Option ℕ) (s u : State) (c : Command) (answer : Reply) (r : Reference) (ty : ℕ) (m : IntMap)
        → Step layouts limit s c answer u → IsMap s.table.types s.table.objects ty m r → IsMap u.table.types u.table.objects ty m r }
{}

/// The same of a whole script.
pub fn runs_keep_lists()
    ensures constants { (layouts : Layouts) (limit : Option ℕ) (s u : State) (cs : List Command) (answers : List Reply) → Run layouts limit s cs answers u
        → KeepsConstants s.table u.table }
    ensures lists { (layouts : Layouts) (limit : Option ℕ) (s u : State) (cs : List Command) (answers : List Reply) (r : Reference) (xs : List ℤ)
        → Run layouts limit s cs answers u → IsList s.table.types s.table.objects r xs → IsList u.table.types u.table.objects r xs }
    ensures maps { (layouts : Layouts) (limit : Option ℕ) (s u : State) (cs : List Command) (answers : List Reply) (r : Reference) (ty : ℕ) (m : IntMap)
        → Run layouts limit s cs answers u → IsMap s.table.types s.table.objects ty m r → IsMap u.table.types u.table.objects ty m r }
{}

/// The same of a value that is written, as every write asks that the value may be changed (`Store::write_value`).
pub fn writes_keep_lists()
    ensures constants { (t : Table ℕ) (position index : ℕ) (v : Value) → IsMutable t position index → KeepsConstants t (write position index v t) }
    ensures lists { (t : Table ℕ) (position index : ℕ) (v : Value) (r : Reference) (xs : List ℤ) → IsMutable t position index
        → IsList t.types t.objects r xs → IsList (write position index v t).types (write position index v t).objects r xs }
    ensures maps { (t : Table ℕ) (position index : ℕ) (v : Value) (r : Reference) (ty : ℕ) (m : IntMap) → IsMutable t position index
        → IsMap t.types t.objects ty m r → IsMap (write position index v t).types (write position index v t).objects ty m r }
{}

/// An owned root that is live before a script and after it names the same, whatever the script does. So a version of a list or a
/// map that is live after it stands for that list or map still.
pub fn runs_keep_versions()
    ensures roots { (layouts : Layouts) (limit : Option ℕ) (store : StoreView ℕ) (s u : State) (cs : List Command) (answers : List Reply) (number : ℕ)
        (r r' : Reference) → HoldsTable layouts store s.table → Run layouts limit s cs answers u → owned_reference s.table number ≡ Some r
        → owned_reference u.table number ≡ Some r' → r' ≡ r }
    ensures lists { (layouts : Layouts) (limit : Option ℕ) (store new : StoreView ℕ) (s u : State) (cs : List Command) (answers : List Reply)
        (version : Option GcRootIndex) (ty : ℕ) (xs : List ℤ) (r : Reference) → HoldsTable layouts store s.table → Run layouts limit s cs answers u
        → StandsForListOf store s.table version ty xs → VersionNames new u.table version r → StandsForListOf new u.table version ty xs }
    ensures maps { (layouts : Layouts) (limit : Option ℕ) (store new : StoreView ℕ) (s u : State) (cs : List Command) (answers : List Reply)
        (version : Option GcRootIndex) (ty : ℕ) (m : IntMap) (r : Reference) → HoldsTable layouts store s.table → Run layouts limit s cs answers u
        → StandsForMapOf store s.table version ty m → VersionNames new u.table version r → StandsForMapOf new u.table version ty m }
{}
