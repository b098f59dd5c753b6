//! Laws of roots: what they keep, and what becomes of what they don't reach.

ghost use Rattle.std.specs.Prelude.{◌≡◌, ◌<◌, ℕ, List, Option, Some, slice_get, length};
ghost use Rattle.std.specs.List.{Contains};
ghost use Rattle.gc_types.specs.declared.kind.Layouts.{Layouts};
ghost use Rattle.gc_types.specs.declared.kind.Layouts.TheVariants.{Null};
ghost use Rattle.gc_owner.specs.declared.entry.GcClass.{GcClass};
ghost use Rattle.gc_model.specs.Allocation.{Limits};
ghost use Rattle.gc_model.specs.Values.{Value, Object};
ghost use Rattle.gc_model.specs.Table.{Table, start};
ghost use Rattle.gc_model.specs.Reach.{IsReached, IsHost, HasNumber};
ghost use Rattle.gc_model.specs.Accounts.{Account, no_account};
ghost use Rattle.gc_commands.specs.declared.command.Command.{Command};
ghost use Rattle.gc_commands.specs.declared.reply.Reply.{Reply};
ghost use Rattle.gc_commands.specs.declared.reply.Reply.TheVariants as reply;
ghost use Rattle.gc_commands.specs.declared.reply.Refusal.{Refusal};
ghost use Rattle.gc_commands.specs.declared.reply.Refusal.TheVariants as refusal;
ghost use Rattle.gc_script.specs.Given.{given_register, gone};
ghost use Rattle.gc_script.specs.State.{State, begin, visible};
ghost use Rattle.gc_script.specs.Shapes.{making, shape};
ghost use Rattle.gc_script.specs.Policy.{RunByPolicy};
ghost use Rattle.gc_script.specs.Steps.{Step};
ghost use Rattle.gc_script.specs.Run.{Run};
ghost use Rattle.gc_laws.specs.Writes.{object_value_at, Writes, NoneWrites};
ghost use Rattle.gc_laws.specs.Stale.{NoneSets, HasObject, HasOperand};

/// What is rooted stays. After any run by the policy of growth from an empty table, over a heap of any kind, the heap
/// holds each position that is reached, and its values are those last written: a new object has those that it was made
/// of, a command that is done and writes one leaves it, and what no command writes is as it was.
pub fn rooted_stays()
    ensures held { (layouts : Layouts) (counter : Option ℕ) (first max_scoped max_owned : ℕ) (limits limits' : Limits) (s : State) (cs : List Command)
        (rs : List Reply) (p : ℕ)
        → RunByPolicy layouts counter (begin (start first max_scoped max_owned) no_account) limits cs rs s limits' → IsReached s.table p
        → Contains s.account.held p }
    ensures made { (layouts : Layouts) (limit : Option ℕ) (s s' : State) (c : Command) (d : ℕ) (class : GcClass) (object : State → Object ℕ)
        → shape c ≡ making d class object
        → Step layouts limit s c reply.Done s' → slice_get s'.table.objects (length s.table.objects) ≡ Some (object (visible s)) }
    ensures written { (layouts : Layouts) (limit : Option ℕ) (s s' : State) (c : Command) (p i : ℕ) (v : Value)
        → Step layouts limit s c reply.Done s' → Writes s c p i v → object_value_at s'.table p i ≡ Some v }
    ensures unwritten { (layouts : Layouts) (limit : Option ℕ) (s s' : State) (cs : List Command) (rs : List Reply) (p i : ℕ)
        (run : Run layouts limit s cs rs s')
        → p < length s.table.objects → NoneWrites layouts limit s cs rs s' run p i → object_value_at s'.table p i ≡ object_value_at s.table p i }
{}

/// Garbage really goes. In a copying and in a counting heap `held N M` tells exactly how many positions are reached, and
/// how many host objects are among them. In a session over a heap of any kind, a position that stands and isn't reached
/// is reached in no later state.
pub fn garbage_really_goes()
    ensures held { (layouts : Layouts) (limit : Option ℕ) (s s' : State) (c : Command) (objects hosts : ℕ) → ¬ (layouts ≡ Null)
        → Step layouts limit s c (reply.Held objects hosts) s'
        → HasNumber (IsReached s'.table) objects × HasNumber (λ (p : ℕ). IsReached s'.table p × IsHost (slice_get s'.table.objects p)) hosts }
    ensures gone { (layouts : Layouts) (limit : Option ℕ) (t : Table ℕ) (a : Account) (s s' : State) (before cs : List Command) (said rs : List Reply)
        (p : ℕ) → Run layouts limit (begin t a) before said s → p < length s.table.objects → ¬ IsReached s.table p
        → Run layouts limit s cs rs s' → ¬ IsReached s'.table p }
{}

/// A stale handle is refused for ever. In a session, once the root that a register names was dropped, the register is
/// gone in every later state until it is set again. A command that has it as its object, or as one of two, and whose
/// other names stand, replies `Unrooted`; one that has it as a value that it looks at is refused.
pub fn stale_handles_are_refused()
    ensures stays { (layouts : Layouts) (limit : Option ℕ) (t : Table ℕ) (a : Account) (s s' : State) (before cs : List Command) (said rs : List Reply)
        (r : ℕ) → Run layouts limit (begin t a) before said s → given_register s r ≡ gone → NoneSets r cs
        → Run layouts limit s cs rs s' → given_register s' r ≡ gone }
    ensures object { (layouts : Layouts) (limit : Option ℕ) (s s' : State) (c : Command) (answer : Reply) (r : ℕ)
        → given_register s r ≡ gone → HasObject s c r → Step layouts limit s c answer s' → answer ≡ reply.Refused refusal.Unrooted }
    ensures value { (layouts : Layouts) (limit : Option ℕ) (s s' : State) (c : Command) (answer : Reply) (r : ℕ)
        → given_register s r ≡ gone → HasOperand c r → Step layouts limit s c answer s' → (why : Refusal) × (answer ≡ reply.Refused why) }
{}
