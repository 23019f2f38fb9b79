//! Laws of execution, for the crates above. The functions do nothing; they carry the laws.
ghost use Rattle.std.specs.Prelude.{List, ℕ, ◌+◌, ◌≡◌, ◌≤◌, [], Some, None, All, length};
ghost use Rattle.mv_syntax.specs.declared.ops.ValType.{ValType as TypeOfValue};
ghost use Rattle.mv_syntax.specs.declared.types.FuncType.{FuncType};
ghost use Rattle.mv_syntax.specs.declared.instr.Instr.{Instr};
ghost use Rattle.mv_syntax.specs.Kept.{Keeps};
ghost use Rattle.mv_syntax.specs.Sections.{Parts};
ghost use Rattle.mv_syntax.specs.Tree.{Tree};
ghost use Rattle.mv_validator.specs.Types.{operands_of};
ghost use Rattle.mv_validator.specs.Typing.{Context, func_type};
ghost use Rattle.mv_validator.specs.Valid.{IsValid};
ghost use Rattle.mv_memory.specs.Bytes.{IsByte, page_limit};
ghost use Rattle.mv_memory.specs.Memory.{Contents, page_count};
ghost use Rattle.mv_execution.specs.Config.{Program, Store, OpenBlock, Frame, Config};
ghost use Rattle.mv_execution.specs.Rows.{Goes, acted, advanced};
ghost use Rattle.mv_execution.specs.Rises.{leaves_more, Leaves, LeavesFirst};
ghost use Rattle.mv_execution.specs.Limits.{result_count, IsWithinLimits};
ghost use Rattle.mv_execution.specs.Instance.{program_of, new_config, with_element, with_memory};
ghost use Rattle.mv_execution.specs.Run.{settled, run, gone_on, StandsAt, CountsAt, entered, arguments, answered, with_new_gap};
ghost use Rattle.mv_execution.specs.Fits.{AreOf, FitsProgram, FitsConfig, RunFits, IsTypedModule, module_context};

/// Typed code is never stuck (WebAssembly Core 1.0, 7.5): a run of a typed configuration stops at an imported function, at
/// its end, by a trap or for want of fuel, never for want of an operand, of one of its type, of a local or of a label, and
/// the configuration is typed again. So it is where a function is entered, where a call is answered by results of its type,
/// and with another element, memory or gap. The arguments of a call that waits are of its parameters' types, and what a run has
/// ended with is of the result's type of the function that was entered.
///
/// A valid module has types, by what the type `Module` keeps, and a module with types begins so: its program, and its
/// configuration before anything is entered. So a machine made from a valid module needs nothing else.
pub fn typed_code_is_never_stuck()
    ensures typed { (p : Parts) → Keeps p → IsValid p → IsTypedModule p }
    ensures program { (p : Parts) → IsTypedModule p → FitsProgram (module_context p) (program_of p) }
    ensures begins { (p : Parts) → IsTypedModule p → FitsConfig (module_context p) [] (new_config p) }
    ensures run { (m : Context) (gs : List TypeOfValue) (program : Program) (fuel : ℕ) (c : Config) → FitsProgram m program → FitsConfig m gs c → RunFits m gs (run program fuel c) }
    ensures entered { (m : Context) (gs : List TypeOfValue) (program : Program) (c : Config) (x : ℕ) (t : FuncType) → FitsProgram m program → FitsConfig m gs c → c.frames ≡ [] → func_type m x ≡ Some t → t.params ≡ [] → FitsConfig m (operands_of t.result) (entered program x c) }
    ensures answered { (m : Context) (gs : List TypeOfValue) (program : Program) (c : Config) (x : ℕ) (t : FuncType) (results : List ℕ) → FitsProgram m program → FitsConfig m gs c → c.waiting ≡ Some x → func_type m x ≡ Some t → AreOf (operands_of t.result) results → FitsConfig m gs (answered program results c) }
    ensures arguments { (m : Context) (gs : List TypeOfValue) (program : Program) (c : Config) (x : ℕ) (t : FuncType) → FitsProgram m program → FitsConfig m gs c → c.waiting ≡ Some x → func_type m x ≡ Some t → AreOf t.params (arguments program c) }
    ensures element { (m : Context) (gs : List TypeOfValue) (c : Config) (at x : ℕ) (t : FuncType) → func_type m x ≡ Some t → FitsConfig m gs c → FitsConfig m gs (with_element at x c) }
    ensures memory { (m : Context) (gs : List TypeOfValue) (c : Config) (memory : Contents) → All IsByte memory.bytes → page_count memory ≤ page_limit → FitsConfig m gs c → FitsConfig m gs (with_memory memory c) }
    ensures gap { (m : Context) (gs : List TypeOfValue) (c : Config) → FitsConfig m gs c → FitsConfig m gs (with_new_gap c) }
{}

/// An instruction that calls nothing leaves one operand more than it finds where it is a constant, or gives a local, a
/// global or the memory's size, and else no more than it finds (WebAssembly Core 1.0, 4.4). A block begins with the operands
/// that are there, and an `if` with one less.
pub fn one_more_or_none()
    ensures instruction { (i : Instr) (s : Store) (f : Frame) (next : Store × Frame) → acted i s f ≡ Goes next → Leaves (leaves_more i) f next.1 }
    ensures first { (t : Tree) (b : OpenBlock) (outer : List OpenBlock) (s : Store) (f : Frame) (next : Store × Frame) → advanced t b outer s f ≡ Goes next → LeavesFirst t f next.1 }
{}

/// A run keeps the limits of this host: on the calls that are open, on their operands together, and on the gap; and a call
/// that waits has place for its results. So it is before anything is entered, where a function is entered, where a call is
/// answered with as many results as its type has, and with another element, memory or gap.
pub fn runs_stay_within_limits()
    ensures begins { (program : Program) (p : Parts) → IsWithinLimits program (new_config p) }
    ensures run { (program : Program) (fuel : ℕ) (c : Config) → IsWithinLimits program c → IsWithinLimits program (run program fuel c).0 }
    ensures entered { (program : Program) (c : Config) (x : ℕ) → IsWithinLimits program c → c.frames ≡ [] → IsWithinLimits program (entered program x c) }
    ensures answered { (program : Program) (c : Config) (x : ℕ) (results : List ℕ) → IsWithinLimits program c → c.waiting ≡ Some x → length results ≡ result_count program x → IsWithinLimits program (answered program results c) }
    ensures element { (program : Program) (c : Config) (at x : ℕ) → IsWithinLimits program c → IsWithinLimits program (with_element at x c) }
    ensures memory { (program : Program) (c : Config) (memory : Contents) → IsWithinLimits program c → IsWithinLimits program (with_memory memory c) }
    ensures gap { (program : Program) (c : Config) → IsWithinLimits program c → IsWithinLimits program (with_new_gap c) }
{}

/// What a run leaves, by the way it stops: where it stops at an imported function, this one waits; where it has ended no call
/// is left, and what the last one gave is kept; and else a call is open, and none waits. It stops for want of fuel only where
/// as many instructions have counted as there was fuel, and never have more.
pub fn stops_are_seen()
    ensures stands { (program : Program) (fuel : ℕ) (c : Config) → StandsAt (run program fuel c).1 (run program fuel c).0 }
    ensures counts { (program : Program) (fuel : ℕ) (c : Config) → CountsAt (run program fuel c).1 c.gap fuel (run program fuel c).0.gap }
{}

/// A run in slices of fuel is one run: where it stops for want of fuel it goes on from there with more, and where it stops
/// for another reason more fuel changes nothing. A configuration that is settled is settled again to itself.
pub fn runs_go_on()
    ensures slices { (program : Program) (a b : ℕ) (c : Config) → run program (a + b) c ≡ gone_on program b (run program a c) }
    ensures settled { (c : Config) → settled (settled c) ≡ settled c }
{}
