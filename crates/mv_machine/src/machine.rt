//! A machine, and what is done with it from outside.

ghost use Rattle.std.specs.Prelude.{◌≡◌, ◌<◌, ◌≤◌, [], ℕ, List, Some, None, IsSome, IsNone, IfSome, IfOk, OnOk, OnErr, length, slice_get};
ghost use Rattle.mv_syntax.specs.declared.module.Global.{Global as Variable};
ghost use Rattle.mv_syntax.specs.declared.ops.ValType.{ValType as TypeOfValue};
ghost use Rattle.mv_syntax.specs.declared.types.FuncType.{FuncType as Signature};
ghost use Rattle.mv_validator.specs.Types.{operands_of};
ghost use Rattle.mv_validator.specs.Typing.{func_type};
ghost use Rattle.mv_validator.specs.Valid.{IsValid};
ghost use Rattle.mv_memory.specs.Memory.{disowned};
ghost use Rattle.mv_execution.specs.Config.{frame_limit, gap_limit, operand_count, operand_limit};
ghost use Rattle.mv_execution.specs.Instance.{program_of, new_config, with_element, with_memory};
ghost use Rattle.mv_execution.specs.Run.{entered, arguments, answered, with_new_gap, param_count};
ghost use Rattle.mv_execution.specs.Fits.{IsOf, AreOf, FitsConfig, FitsProgram, module_context};
ghost use Rattle.mv_machine.specs.States.{values_of};
ghost use Rattle.mv_machine.specs.Calls.{HasFunction};
ghost use Rattle.mv_machine.specs.Turns.{StopIs};
ghost use Rattle.mv_machine.specs.Stops.{StopStands, StopFits};
ghost use Rattle.mv_machine.specs.Memories.{IsMemory};
ghost use Rattle.mv_machine.specs.Lending.{LendsMemory};
ghost use Rattle.std.specs.Borrow.{sem};

use crate::calls::{function_type, has_function};
use crate::copy::copy_state;
use crate::instance::new_state;
use crate::outside::{answer_call, argument, enter_function};
use crate::run::{Stop, run};
use crate::state::State;
use mv_calls::OutOfMemory;
use mv_memory::Memory;
use mv_syntax::FuncType;
use mv_validator::ValidModule;
use std::alloc::Global;
use std::marker::Model;
use std::sync::Arc;

/// A machine for one module. Contracts see it as the module with a configuration of it (`mv_execution/specs/Config.antt`), which
/// is typed and within the limits at every moment. It shares the module with its copies.
#[derive(Drop)]
pub struct Machine {
    module: Arc<ValidModule>,
    state: State,
}

impl Model for Machine {
    ghost use Rattle.mv_machine.specs.Executions.{Execution};
    ghost use Rattle.mv_syntax.proofs.TreeCode.{tree_code, Mark};
    ghost use Rattle.mv_syntax.specs.contracts.instr.Instr as instr;
    ghost use Rattle.mv_syntax.specs.contracts.ops.ValType as vtype;
    ghost use Rattle.std.specs.Coded.{codes, Coded};

    ghost Value = { Execution };

    ghost coded = { let m : Coded Mark = Prim.hlevel (codes, instr.the_row.coded, vtype.the_row.coded) in Prim.hlevel (codes, tree_code m) };

    ghost use Rattle.mv_machine.specs.States.{config_of};
    ghost use Rattle.mv_machine.specs.Memories.{IsKept};

    ghost view = { λ m. record { parts = m.«module».value; config = config_of m.«module».value m.state } };

    ghost invariant = { λ m. IsKept m.«module».value m.state };
}

/// What the type of a memory keeps. The function does nothing; it carries the law.
fn keeps_memory(memory: &Memory)
    ensures { IsMemory memory.now }
{
    let _pages = memory.pages();
}

impl Machine {
    /// A machine for the module: its memory and its table are of their least sizes, its globals have their initial values, no
    /// function was entered, and the gap is 0 (WebAssembly Core 1.0, 4.5.3). Nothing of its segments is written.
    pub fn new(alloc: Global, module: ValidModule) -> Result<Machine, OutOfMemory>
        ensures { IfOk result (λ machine. machine ≡ record { parts = «module»; config = new_config «module» }) }
    {
        let state = new_state(alloc, module.module())?;
        Ok(Machine {
            module: Arc::new(alloc, module)?,
            state,
        })
    }

    /// The module.
    pub fn module(&self) -> &ValidModule
        ensures { result.now ≡ self.now.parts }
    {
        &self.module
    }

    /// What every machine keeps: its module is valid, its configuration has the module's types, and no limit of this host is
    /// passed. So no run of it is ever stuck (`typed_code_is_never_stuck` of mv_execution). The function does nothing; it carries
    /// the law.
    pub fn keeps(&self)
        ensures valid { IsValid self.now.parts }
        ensures program { FitsProgram (module_context self.now.parts) (program_of self.now.parts) }
        ensures typed { (gs : List TypeOfValue) × FitsConfig (module_context self.now.parts) gs self.now.config }
        ensures calls { length self.now.config.frames ≤ frame_limit }
        ensures operands { operand_count self.now.config.frames ≤ operand_limit }
        ensures gap { self.now.config.gap ≤ gap_limit }
    {
        keeps_memory(&self.state.store.memory);
        let module: &ValidModule = &self.module;
        let _module = module.module();
    }

    /// The type of the function with this index, the imported ones first; `None` exactly where there is no such function.
    pub fn function_type(&self, x: u32) -> Option<&FuncType>
        ensures there { IfSome result (λ t. func_type (module_context self.now.parts) x ≡ Some t.now) }
        ensures known { IsSome result → HasFunction self.now.parts x }
        ensures none { IsNone result → func_type (module_context self.now.parts) x ≡ None }
    {
        keeps_memory(&self.state.store.memory);
        let module: &ValidModule = &self.module;
        if has_function(module.module(), x) {
            Some(function_type(module.module(), x))
        } else {
            None
        }
    }

    /// How many entries the table has.
    pub fn table_size(&self) -> usize
        ensures { result ≡ length self.now.config.store.table }
    {
        self.state.store.table.len()
    }

    /// Lets an entry of the table hold a function of the module. `at` is inside the table.
    pub fn set_element(&mut self, at: u32, func: u32)
        requires at { at < length self.old.config.store.table }
        requires there { HasFunction self.old.parts func }
        ensures { self.new ≡ record self.old { config = with_element at func self.old.config } }
    {
        keeps_memory(&self.state.store.memory);
        let module: &ValidModule = &self.module;
        // To look at a valid module brings up that it is one, so that its functions have types.
        let _module = module.module();
        self.state.store.table[at as usize] = Some(func);
    }

    /// Enters a function without parameters, where no call is left (WebAssembly Core 1.0, 4.5.5). An imported one waits for its
    /// answer at once. What a run of it gives is of the result's type. For want of memory nothing changes.
    pub fn enter(&mut self, alloc: Global, func: u32) -> Result<(), OutOfMemory>
        requires idle { self.old.config.frames ≡ [] }
        requires there { HasFunction self.old.parts func }
        requires no_parameter { (t : Signature) → func_type (module_context self.old.parts) func ≡ Some t → t.params ≡ [] }
        ensures ok { OnOk result (self.new ≡ record self.old { config = entered (program_of self.old.parts) func self.old.config }) }
        ensures gives { (t : Signature) → OnOk result (func_type (module_context self.old.parts) func ≡ Some t → FitsConfig (module_context self.old.parts) (operands_of t.result) self.new.config) }
        ensures err { OnErr result (self.new ≡ self.old) }
    {
        keeps_memory(&self.state.store.memory);
        let module: &ValidModule = &self.module;
        enter_function(alloc, module.module(), &mut self.state, func)
    }

    /// The value of a global; it is of the global's type, so an i32 is below 2^32.
    pub fn global(&self, n: u32) -> u64
        requires { n < length self.now.parts.globals }
        ensures is { slice_get self.now.config.store.globals n ≡ Some result }
        ensures fits { (global : Variable) → slice_get self.now.parts.globals n ≡ Some global → IsOf global.vtype result }
    {
        keeps_memory(&self.state.store.memory);
        self.state.store.globals[n as usize]
    }

    /// Runs for at most `fuel` counted instructions, as the run over trees goes (`mv_execution/specs/Run.antt`). It is never
    /// stuck: the reasons to stop are those of `Stop`.
    ///
    /// Each instruction counts when it begins, but for `end` and `else`; a branch back to a loop counts as the branch alone.
    /// `Fuel` comes exactly where `fuel` instructions counted, the machine hasn't stopped otherwise, and another one stands in
    /// front. With the gap at 50,000,000 the next instruction traps Spent, and where the fuel is used up too, `Fuel` comes.
    /// `Memory` leaves the machine between two instructions: the rest of the run is still to come.
    ///
    /// A run keeps the types of what was entered; where it has ended, its result is of the type that `enter` told.
    pub fn run(&mut self, alloc: Global, fuel: u32) -> Stop
        ensures stop { StopIs result (program_of self.old.parts) fuel self.old.config self.new.config }
        ensures stands { StopStands result self.new.config }
        ensures fits { (gs : List TypeOfValue) → FitsConfig (module_context self.old.parts) gs self.old.config → StopFits (module_context self.old.parts) gs result self.new.config }
        ensures same { self.new.parts ≡ self.old.parts }
    {
        keeps_memory(&self.state.store.memory);
        let module: &ValidModule = &self.module;
        run(alloc, module.module(), &mut self.state, fuel)
    }

    /// An argument of the imported function that waits for its answer; the first one is 0. It is of its parameter's type.
    pub fn arg(&self, n: u32) -> u64
        requires waits { IsSome self.now.config.waiting }
        requires within { (x : ℕ) (t : Signature) → self.now.config.waiting ≡ Some x → func_type (module_context self.now.parts) x ≡ Some t → n < length t.params }
        ensures is { slice_get (arguments (program_of self.now.parts) self.now.config) n ≡ Some result }
        ensures fits { (x : ℕ) (t : Signature) (vtype : TypeOfValue) → self.now.config.waiting ≡ Some x → func_type (module_context self.now.parts) x ≡ Some t → slice_get t.params n ≡ Some vtype → IsOf vtype result }
    {
        keeps_memory(&self.state.store.memory);
        let module: &ValidModule = &self.module;
        match self.state.waiting {
            Some(x) => argument(module.module(), &self.state, x, n),
            None => unreachable!(),
        }
    }

    /// Answers the imported function that waits: with a value exactly where it has a result, below 2^32 where that is an i32.
    pub fn push_result(&mut self, value: Option<u64>)
        requires waits { IsSome self.old.config.waiting }
        requires fits { (x : ℕ) (t : Signature) → self.old.config.waiting ≡ Some x → func_type (module_context self.old.parts) x ≡ Some t → AreOf (operands_of t.result) (values_of value) }
        ensures { self.new ≡ record self.old { config = answered (program_of self.old.parts) (values_of value) self.old.config } }
    {
        keeps_memory(&self.state.store.memory);
        let module: &ValidModule = &self.module;
        match self.state.waiting {
            Some(x) => answer_call(module.module(), &mut self.state, x, value),
            None => unreachable!(),
        }
    }

    /// Begins a new gap.
    pub fn new_gap(&mut self)
        ensures { self.new ≡ record self.old { config = with_new_gap self.old.config } }
    {
        keeps_memory(&self.state.store.memory);
        self.state.gap = 0;
    }

    /// The memory.
    pub fn memory(&self) -> &Memory
        ensures { result.now ≡ self.now.config.store.memory }
    {
        &self.state.store.memory
    }

    /// The memory, for writes from outside: what is left behind the loan is the machine's memory.
    pub fn memory_mut(&mut self) -> &mut Memory
        ensures* writes_back { sem 𝓛 (LendsMemory self.entry result) }
        ensures memory { result.now ≡ self.old.config.store.memory }
    {
        keeps_memory(&self.state.store.memory);
        let state = &mut self.state;
        let store = &mut state.store;
        &mut store.memory
    }

    /// An equal machine, which owns no page of its memory. The module is shared.
    pub fn copy(&self, alloc: Global) -> Result<Machine, OutOfMemory>
        ensures { IfOk result (λ copy. copy ≡ record self.now { config = with_memory (disowned self.now.config.store.memory) self.now.config }) }
    {
        keeps_memory(&self.state.store.memory);
        let module: &ValidModule = &self.module;
        Ok(Machine {
            state: copy_state(alloc, module.module(), &self.state)?,
            module: Arc::try_clone(&self.module)?,
        })
    }
}
