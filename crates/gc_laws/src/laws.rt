//! Laws of sessions.

ghost use Rattle.std.specs.Prelude.{◌≡◌, ◌↔◌, ◌++◌, ℕ, IsTrue, List, Option, Some};
ghost use Rattle.std.specs.List.{Contains};
ghost use Rattle.gc_types.specs.declared.kind.Layouts.{Layouts};
ghost use Rattle.gc_types.specs.declared.kind.Layouts.TheVariants.{Null, Counting, Copying};
ghost use Rattle.gc_types.specs.declared.value.HeapType.{HeapType};
ghost use Rattle.gc_types.specs.Declarations.{Declaration};
ghost use Rattle.gc_types.specs.Declarable.{AreDeclared};
ghost use Rattle.gc_types.specs.Subtyping.{MatchesHeap, supertypes_of};
ghost use Rattle.gc_model.specs.Fits.{matches};
ghost use Rattle.gc_model.specs.Table.{Table};
ghost use Rattle.gc_model.specs.Allocation.{Limits};
ghost use Rattle.gc_commands.specs.declared.command.Command.{Command};
ghost use Rattle.gc_commands.specs.declared.command.Command.TheVariants.{Gc, GcDrop, GcInc, Cap};
ghost use Rattle.gc_commands.specs.declared.reply.Reply.{Reply};
ghost use Rattle.gc_script.specs.State.{State};
ghost use Rattle.gc_script.specs.Run.{Run};
ghost use Rattle.gc_script.specs.Policy.{RunByPolicy};
ghost use Rattle.gc_laws.specs.Laws.{NoneLarge, NoneRefused, SameReplies};
ghost use Rattle.gc_laws.specs.Pieces.{InPieces, SessionInPieces};
ghost use Rattle.gc_script.specs.Cutting.{EndsWhole};
ghost use Rattle.gc_script.specs.Session.{Session, SessionFrom};
ghost use Rattle.gc_laws.specs.Rows.{one_struct, one_struct_replies};

/// Three lines that make a struct and read its field are a session of a null heap of one page, whose
/// output is their three replies, and no other output is.
pub fn one_struct_session()
    ensures replies { (t : Table ℕ) × Session Null 1 64 one_struct one_struct_replies t }
    ensures alone { (output : List ℕ) (t : Table ℕ) → Session Null 1 64 one_struct output t → output ≡ one_struct_replies }
{}

/// The policy decides: two runs of one script from one state over a copying or a null heap, which both follow the
/// policy of growth under a limit that is told, have the same replies, those of `cap` among them.
pub fn policy_decides_replies()
    ensures { (layouts : Layouts) (counter : Option ℕ) (limits limits1 limits2 : Limits) (most : ℕ) (s s1 s2 : State) (cs : List Command)
        (rs1 rs2 : List Reply) → ¬ (layouts ≡ Counting)
        → limits.limit ≡ Some most → RunByPolicy layouts counter s limits cs rs1 s1 limits1 → RunByPolicy layouts counter s limits cs rs2 s2 limits2
        → rs1 ≡ rs2 }
{}

/// So the output of a session over a copying or a null heap, with the replies of `cap`, is a function of the words
/// and the input. Over a counting heap, of which the policy leaves open into which gap an object goes, it is one where
/// the heap was refused no pages, and the script has no `cap` and no `gcinc`.
pub fn output_is_decided()
    ensures told_nowhere { (layouts : Layouts) (first most : ℕ) (input output output' : List ℕ) (t t' : Table ℕ) → ¬ (layouts ≡ Counting)
        → Session layouts first most input output t → Session layouts first most input output' t' → output ≡ output' }
    ensures granted { (layouts : Layouts) (first most : ℕ) (input output output' : List ℕ) (t t' : Table ℕ)
        (one : Session layouts first most input output t) (other : Session layouts first most input output' t')
        → NoneRefused one.from_start.replies → NoneRefused other.from_start.replies → ¬ Contains one.from_start.commands Cap
        → ¬ Contains one.from_start.commands GcInc → output ≡ output' }
{}

/// A run by the policy is a run.
pub fn runs_by_policy_are_runs()
    ensures { (layouts : Layouts) (counter : Option ℕ) (limits limits' : Limits) (s s' : State) (cs : List Command) (rs : List Reply)
        → RunByPolicy layouts counter s limits cs rs s' limits' → Run layouts limits.limit s cs rs s' }
{}

/// The steps decide but for the pages: two runs of one script from one state in which no heap was refused
/// pages have the same replies but for those of `cap` and `gcinc`, whether or not they follow the policy.
pub fn steps_decide_replies()
    ensures { (layouts : Layouts) (limit : Option ℕ) (s s1 s2 : State) (cs : List Command) (rs1 rs2 : List Reply)
        → Run layouts limit s cs rs1 s1 → Run layouts limit s cs rs2 s2 → NoneRefused rs1 → NoneRefused rs2 → SameReplies cs rs1 rs2 }
{}

/// Heaps reply alike. Two runs of one script from one state, one over a copying and one over a counting heap, in
/// which no heap was refused pages and none found an object too large, have the same replies but for those of `cap`
/// and `gcinc`. So have runs over any two kinds of heap, of a script without `gc` and `gcdrop`. Replies that are the same so
/// are equal where the script has no `cap` and no `gcinc`, and then the outputs of two sessions, one over each, are equal.
pub fn heaps_reply_alike()
    ensures copying_and_counting { (limit limit' : Option ℕ) (s s1 s2 : State) (cs : List Command) (rs1 rs2 : List Reply)
        → Run Copying limit s cs rs1 s1 → Run Counting limit' s cs rs2 s2
        → NoneRefused rs1 → NoneRefused rs2 → NoneLarge rs1 → NoneLarge rs2 → SameReplies cs rs1 rs2 }
    ensures any { (k l : Layouts) (limit limit' : Option ℕ) (s s1 s2 : State) (cs : List Command) (rs1 rs2 : List Reply) → Run k limit s cs rs1 s1
        → Run l limit' s cs rs2 s2
        → NoneRefused rs1 → NoneRefused rs2 → NoneLarge rs1 → NoneLarge rs2 → ¬ Contains cs Gc → ¬ Contains cs GcDrop → SameReplies cs rs1 rs2 }
    ensures equal { (cs : List Command) (rs1 rs2 : List Reply) → SameReplies cs rs1 rs2 → ¬ Contains cs Cap → ¬ Contains cs GcInc → rs1 ≡ rs2 }
    ensures output { (first most most' : ℕ) (input output output' : List ℕ) (t t' : Table ℕ) (one : Session Copying first most input output t)
        (other : Session Counting first most' input output' t') → NoneRefused one.from_start.replies → NoneRefused other.from_start.replies
        → NoneLarge one.from_start.replies → NoneLarge other.from_start.replies → ¬ Contains one.from_start.commands Cap
        → ¬ Contains one.from_start.commands GcInc → output ≡ output' }
{}

/// Whether a heap type matches another, as the tests of values work it out, is what the arrows between heap
/// types say: of types that are declared one behind the other, by any number of arrows.
pub fn matching_is_by_arrows()
    ensures { (types : List Declaration) (x y : HeapType) → AreDeclared types
        → IsTrue (matches (supertypes_of types) x y) ↔ MatchesHeap (supertypes_of types) x y }
{}

/// A session can be resumed: one over a script that is cut behind a line is one over its front, and then one over
/// its rest from the state that the first reached, with its registers and its scopes. The outputs follow each other.
pub fn session_in_pieces()
    ensures lines { (layouts : Layouts) (counter : Option ℕ) (limits limits' : Limits) (s s' : State) (front rest : List (List ℕ)) (output : List ℕ)
        → SessionFrom layouts counter limits s (front ++ rest) output s' limits' ↔ InPieces layouts counter limits s front rest output s' limits' }
    ensures input { (layouts : Layouts) (first most : ℕ) (front rest output : List ℕ) (t : Table ℕ) → EndsWhole front
        → Session layouts first most (front ++ rest) output t ↔ SessionInPieces layouts first most front rest output t }
{}
