//! What a handle names, and what lies in it.

ghost use Rattle.std.specs.Prelude.{◌≡◌, ◌↔◌, ◌≤◌, ◌⊎◌, ◌<◌, true, false, Some, None, Ok, Err, IfOk, OnOk, OnErr};
ghost use Rattle.gc_owner.specs.declared.entry.GcClass.{GcClass};
ghost use Rattle.gc_model.specs.Table.{Table, push};
ghost use Rattle.gc_model.specs.Reads.{same_reference, after_read};
ghost use Rattle.gc_model.specs.Values.{Reference, Value, small, reference};
ghost use Rattle.gc_model.specs.Forms.{naming};
ghost use Rattle.gc_model.specs.Holds.{HoldsTable, Holds, Placing, IsWord};
ghost use Rattle.gc_model.specs.Accounts.{Account, IsAccount, HoldsAccount};
ghost use Rattle.gc_store.specs.Roots.{word_of, IsRootWord, IsReference, NamesReference, NamesNothing, TellsReference, TellsWord, is_of_store, HasValue, CanRead};
ghost use Rattle.gc_store.specs.Roots.{FindsRoot};
ghost use Rattle.gc_store.specs.Handles.{PushesRoot};
ghost use Rattle.gc_store.specs.Values.{ReadsValue};
ghost use Rattle.gc_store.specs.Reading.{FindsValue, CanReadIn, FindsValueIn, IsFoundHere, IsReferenceWord, ReadsReference};
ghost use Rattle.gc_store.specs.Stores.{IsSameStore, scoped_places};
ghost use Rattle.gc_store.specs.Staying.{OnlyAdds};
ghost use Rattle.gc_store.specs.OwnedWords.{HoldsThere};
ghost use Rattle.gc_values.specs.Kept.{FoundStands};

use crate::place::scoped_handle;
use crate::store::Store;
use gc_heap::GcHeap;
use gc_refs::{I31, VMGcRef};
use gc_values::describe::describe_held;
use gc_values::interned::{cont_at, function_at};
use gc_values::root::{GcRootIndex, RawValue, RootFault, RootedObject};
use gc_values::slot::slot_in;
use gc_values::stored::{Found, read_slot};
use gc_values::word::word_at;

impl<H: GcHeap, D: Drop> Store<H, D> {
    /// The word that the handle's root has.
    #[inline(always)]
    pub(crate) fn word_of(&self, handle: GcRootIndex) -> Result<u32, RootFault>
        ensures { result ≡ word_of self.now handle }
    {
        if handle.store_id != self.id {
            return Err(RootFault::WrongStore);
        }
        word_at(
            self.owner.scoped(),
            self.owner.owned(),
            handle.slot,
            handle.generation,
        )
    }

    /// What the reference with that word is.
    #[inline(always)]
    pub(crate) fn describe(&self, word: u32) -> RootedObject
        requires { IsRootWord D H.KIND self.now word }
        ensures { (t : Table D) (place : Placing) (r : Reference) → Holds H.KIND self.now t place → IsWord place r word → 0 < word
            → IsReference t r result }
    {
        let gc_ref = VMGcRef::from_raw_u32(word).unwrap();
        if let Some(number) = gc_ref.as_i31() {
            return RootedObject::I31(number);
        }
        describe_held(self.owner.heap(), &gc_ref)
    }

    /// What the handle's reference is. `WrongStore` where it is another store's handle, `Unrooted`
    /// where it isn't live.
    #[inline(always)]
    pub fn object(&self, handle: GcRootIndex) -> Result<RootedObject, RootFault>
        ensures wrong_store { is_of_store self.now handle ≡ false → result ≡ Err RootFault.WrongStore }
        ensures live { (t : Table D) (r : Reference) → HoldsTable H.KIND self.now t → NamesReference self.now t handle r → TellsReference t r result }
        ensures found { IfOk result (FindsRoot D H.KIND self.now handle) }
        ensures gone { is_of_store self.now handle ≡ true → (t : Table D) → HoldsTable H.KIND self.now t → NamesNothing self.now t handle
            → result ≡ Err RootFault.Unrooted }
    {
        self.owner.is_ready();
        match self.word_of(handle) {
            Ok(word) => Ok(self.describe(word)),
            Err(fault) => Err(fault),
        }
    }

    /// The word of the handle's reference, as the heap has it until it collects next: that of a 31-bit number is odd, and
    /// that of an object is where it lies. `WrongStore` where it is another store's handle, `Unrooted` where it isn't live.
    /// It takes no memory.
    pub fn word(&self, handle: GcRootIndex) -> Result<u32, RootFault>
        ensures wrong_store { is_of_store self.now handle ≡ false → result ≡ Err RootFault.WrongStore }
        ensures live { (t : Table D) (place : Placing) (r : Reference) → Holds H.KIND self.now t place → NamesReference self.now t handle r
            → TellsWord place r result }
        ensures gone { is_of_store self.now handle ≡ true → (t : Table D) → HoldsTable H.KIND self.now t → NamesNothing self.now t handle
            → result ≡ Err RootFault.Unrooted }
    {
        match self.word_of(handle) {
            Ok(word) => Ok(word),
            Err(fault) => Err(fault),
        }
    }

    /// Whether two handles name the same reference: the same object, or the same 31-bit number.
    /// `WrongStore` where one of them is another store's, then `Unrooted` where one isn't live.
    pub fn index_eq(&self, a: GcRootIndex, b: GcRootIndex) -> Result<bool, RootFault>
        ensures wrong_store { (is_of_store self.now a ≡ false) ⊎ (is_of_store self.now b ≡ false) → result ≡ Err RootFault.WrongStore }
        ensures live { (t : Table D) (r q : Reference) → HoldsTable H.KIND self.now t → NamesReference self.now t a r → NamesReference self.now t b q
            → result ≡ Ok (same_reference r q) }
        ensures gone { is_of_store self.now a ≡ true → is_of_store self.now b ≡ true → (t : Table D) → HoldsTable H.KIND self.now t
            → NamesNothing self.now t a ⊎ NamesNothing self.now t b → result ≡ Err RootFault.Unrooted }
    {
        if a.store_id != self.id || b.store_id != self.id {
            return Err(RootFault::WrongStore);
        }
        let first = self.word_of(a)?;
        let second = self.word_of(b)?;
        Ok(first == second)
    }

    /// Pushes a scoped root for a copy of a word of the store.
    #[inline(always)]
    pub(crate) fn push_root(&mut self, word: u32) -> Result<GcRootIndex, RootFault>
        requires { IsRootWord D H.KIND self.old word }
        ensures pushes { (t : Table D) (place : Placing) (a : Account) (r : Reference) → Holds H.KIND self.old t place → IsAccount H.KIND self.old place a
            → IsWord place r word → PushesRoot H.KIND t a r result self.new }
        ensures there { (t : Table D) (place : Placing) (a : Account) (r : Reference) → HoldsThere H.KIND self.old t place a → IsWord place r word
            → OnOk result (HoldsThere H.KIND self.new (push r t) place a) }
        ensures adds { OnOk result (OnlyAdds self.old self.new) }
        ensures err { OnErr result (self.new ≡ self.old) }
        ensures same { IsSameStore self.old self.new }
        ensures spare { scoped_places self.old ≤ scoped_places self.new }
        ensures reserved { 0 < self.old.spare → result ≡ Err RootFault.Memory → ⊥ }
    {
        if self.roots_full() {
            return Err(RootFault::RootsFull);
        }
        let more = self.owner.roots_wanted();
        if self.owner.reserve(more).is_err() {
            return Err(RootFault::Memory);
        }
        let generation = self.owner.generation();
        let index = self.owner.push(word);
        Ok(scoped_handle(self.id, generation, index))
    }

    /// Pushes a scoped root for a 31-bit number. `RootsFull` where no further one may be made.
    pub fn push_i31(&mut self, value: I31) -> Result<GcRootIndex, RootFault>
        ensures pushes { (t : Table D) (a : Account) → HoldsAccount H.KIND self.old t a → PushesRoot H.KIND t a (small value) result self.new }
        ensures err { OnErr result (self.new ≡ self.old) }
        ensures same { IsSameStore self.old self.new }
        ensures spare { scoped_places self.old ≤ scoped_places self.new }
        ensures reserved { 0 < self.old.spare → result ≡ Err RootFault.Memory → ⊥ }
    {
        self.owner.is_ready();
        self.push_root(VMGcRef::from_i31(value).as_raw_u32())
    }

    /// What lies at that index of the object that has that word: a field of a struct or an exception, or an element of an array.
    /// The word is that of a live root, as `word` tells it, and stands for the object until the heap collects next. It makes no
    /// root and takes no memory.
    #[inline(always)]
    pub fn found_in(&self, word: u32, index: u32) -> Found
        requires { CanReadIn D H.KIND self.now word index }
        ensures { FindsValueIn D H.KIND self.now word index result }
    {
        self.owner.is_ready();
        let gc_ref = VMGcRef::from_raw_u32(word).unwrap();
        let slot = slot_in(self.owner.heap(), self.owner.types(), &gc_ref, index);
        read_slot(self.owner.heap(), &gc_ref, &slot)
    }

    /// What lies at that index of the object that the handle names.
    #[inline(always)]
    fn found_at(&self, handle: GcRootIndex, index: u32) -> Found
        requires { CanRead D H.KIND self.now handle index }
        ensures { FindsValue D H.KIND self.now handle index result }
    {
        match self.word_of(handle) {
            Ok(word) => self.found_in(word, index),
            Err(_) => unreachable!(),
        }
    }

    /// A reference by its word. One that isn't null gets a scoped root: `RootsFull` where no further one may be made.
    #[inline(always)]
    pub(crate) fn push_reference(&mut self, word: u32) -> Result<Option<GcRootIndex>, RootFault>
        requires { IsReferenceWord D H.KIND self.old word }
        ensures reads { ReadsReference H.KIND self.old word result self.new }
        ensures there { (t : Table D) (place : Placing) (a : Account) (class : GcClass) (r : Reference) → HoldsThere H.KIND self.old t place a
            → IsWord place r word → OnOk result (HoldsThere H.KIND self.new (after_read (reference class r) t) place a) }
        ensures null { IfOk result (λ found. (found ≡ None) ↔ (word ≡ 0)) }
        ensures err { OnErr result (self.new ≡ self.old) }
        ensures same { IsSameStore self.old self.new }
        ensures spare { scoped_places self.old ≤ scoped_places self.new }
        ensures reserved { 0 < self.old.spare → result ≡ Err RootFault.Memory → ⊥ }
    {
        if word == 0 {
            return Ok(None);
        }
        match self.push_root(word) {
            Ok(found) => Ok(Some(found)),
            Err(fault) => Err(fault),
        }
    }

    /// What was found in an object, as a value. A reference that isn't null gets a scoped root: `RootsFull` where no further one
    /// may be made.
    #[inline(always)]
    pub fn give_found(&mut self, found: Found) -> Result<RawValue, RootFault>
        requires { IsFoundHere D H.KIND self.old found }
        ensures reads { (t : Table D) (place : Placing) (a : Account) (value : Value) → Holds H.KIND self.old t place → IsAccount H.KIND self.old place a
            → FoundStands (naming place self.old.ids) found value → ReadsValue H.KIND t a value result self.new }
        ensures there { (t : Table D) (place : Placing) (a : Account) (value : Value) → HoldsThere H.KIND self.old t place a
            → FoundStands (naming place self.old.ids) found value → OnOk result (HoldsThere H.KIND self.new (after_read value t) place a) }
        ensures err { OnErr result (self.new ≡ self.old) }
        ensures same { IsSameStore self.old self.new }
        ensures spare { scoped_places self.old ≤ scoped_places self.new }
        ensures reserved { 0 < self.old.spare → result ≡ Err RootFault.Memory → ⊥ }
    {
        match found {
            Found::Number(value) => Ok(value),
            Found::Func(code) => Ok(RawValue::Func(function_at(&self.interned.functions, code))),
            Found::Cont(code) => Ok(RawValue::Cont(cont_at(&self.interned.conts, code))),
            Found::Ref(class, word) => match self.push_reference(word) {
                Ok(found) => Ok(RawValue::Ref(class, found)),
                Err(fault) => Err(fault),
            },
        }
    }

    /// The value at that index of the object that the handle names: a field of a struct or an exception, or an element
    /// of an array. A reference that isn't null gets a scoped root: `RootsFull` where no further one may be made.
    #[inline(always)]
    pub fn read_value(&mut self, handle: GcRootIndex, index: u32) -> Result<RawValue, RootFault>
        requires { CanRead D H.KIND self.old handle index }
        ensures reads { (t : Table D) (a : Account) (value : Value) → HoldsAccount H.KIND self.old t a → HasValue self.old t handle index value
            → ReadsValue H.KIND t a value result self.new }
        ensures there { (t : Table D) (place : Placing) (a : Account) (value : Value) → HoldsThere H.KIND self.old t place a
            → HasValue self.old t handle index value → OnOk result (HoldsThere H.KIND self.new (after_read value t) place a) }
        ensures err { OnErr result (self.new ≡ self.old) }
        ensures same { IsSameStore self.old self.new }
        ensures spare { scoped_places self.old ≤ scoped_places self.new }
        ensures reserved { 0 < self.old.spare → result ≡ Err RootFault.Memory → ⊥ }
    {
        let found = self.found_at(handle, index);
        self.give_found(found)
    }
}
