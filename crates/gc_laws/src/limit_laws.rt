//! What a limit decides that is told.

ghost use Rattle.std.specs.Prelude.{◌≡◌, ◌↔◌, max, ◌<◌, ◌≤◌, ℕ, Bool, false, List, Option, Some};
ghost use Rattle.gc_types.specs.declared.kind.Layouts.{Layouts};
ghost use Rattle.gc_model.specs.Values.{Object};
ghost use Rattle.gc_model.specs.Table.{Table};
ghost use Rattle.gc_view.specs.Pages.{max_pages};
ghost use Rattle.gc_model.specs.Words.{Placing};
ghost use Rattle.gc_model.specs.Allocation.{Allocates, LacksMemory, Grows};
ghost use Rattle.gc_commands.specs.declared.command.Command.{Command};
ghost use Rattle.gc_commands.specs.declared.reply.Reply.{Reply};
ghost use Rattle.gc_script.specs.State.{State};
ghost use Rattle.gc_commands.specs.declared.reply.Reply.TheVariants as reply;
ghost use Rattle.gc_commands.specs.declared.reply.Refusal.TheVariants as refusal;
ghost use Rattle.gc_script.specs.Steps.{Step};
ghost use Rattle.gc_script.specs.Run.{Run};
ghost use Rattle.gc_laws.specs.Laws.{PassesLimit, RunsOut, IsOutOfMemory, FailsToGrow};

/// Under a limit that grants the first pages, `GcHeapOutOfMemory` comes exactly where the pages that a growth
/// asks for would pass the limit and there is no room beside what a collection keeps, where that lies, and
/// `GcHeapGrowthFailed` exactly where a growth by some bytes would pass it. No step takes a heap above the
/// limit, or above the pages that it had.
pub fn told_limits_decide()
    ensures out_of_memory { (layouts : Layouts) (most : ℕ) (places : Placing) (o : Object ℕ) (t t' : Table ℕ) → most ≤ max_pages → t.first ≤ most
        → LacksMemory layouts (Some most) places o t t' → RunsOut layouts most places t o }
    ensures success { (layouts : Layouts) (most : ℕ) (places : Placing) (o : Object ℕ) (t t' : Table ℕ) → Allocates layouts (Some most) places o t t'
        → ¬ RunsOut layouts most places t o }
    ensures growth { (most bytes : ℕ) (t t' : Table ℕ) (granted : Bool) → most ≤ max_pages → t.first ≤ most → Grows (Some most) bytes t granted t'
        → (granted ≡ false) ↔ ((0 < bytes) × PassesLimit most t bytes) }
    ensures pages { (layouts : Layouts) (most : ℕ) (s s' : State) (cs : List Command) (rs : List Reply) → Run layouts (Some most) s cs rs s'
        → s'.table.pages ≤ max most s.table.pages }
{}

/// So the replies tell it exactly. Of each step under a limit of at most 65,535 pages that grants the first pages
/// (which stay those of the start in a run), over a heap of any kind: `GcHeapOutOfMemory` is the reply exactly
/// where the command makes an object, no test refuses it, it has no room beside what a collection keeps, and its growth
/// would pass the limit; `GcHeapGrowthFailed` is it exactly where the command is a growth by some bytes that would pass
/// the limit.
pub fn refusals_are_exact()
    ensures out_of_memory { (layouts : Layouts) (most : ℕ) (s s' : State) (c : Command) (r : Reply) → most ≤ max_pages → s.table.first ≤ most
        → Step layouts (Some most) s c r s' → (r ≡ reply.Refused refusal.GcHeapOutOfMemory) ↔ IsOutOfMemory layouts most s c }
    ensures growth_failed { (layouts : Layouts) (most : ℕ) (s s' : State) (c : Command) (r : Reply) → most ≤ max_pages → s.table.first ≤ most
        → Step layouts (Some most) s c r s' → (r ≡ reply.Refused refusal.GcHeapGrowthFailed) ↔ FailsToGrow layouts most s c }
    ensures first { (layouts : Layouts) (limit : Option ℕ) (s s' : State) (cs : List Command) (rs : List Reply) → Run layouts limit s cs rs s'
        → s'.table.first ≡ s.table.first }
{}
