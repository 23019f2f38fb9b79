//! Laws of the grammar that those who read, check and run modules can rely on. The functions do nothing; they carry
//! the laws.
ghost use Rattle.std.specs.Prelude.{◌≡◌, List, ℕ, ◌↔◌, true, false, Ok, ◌≤◌, length};
ghost use Rattle.mv_syntax.specs.Numbers.{u32 as number32, s32, s64, IsUnsigned, IsSigned};
ghost use Rattle.mv_syntax.specs.Tree.{Tree, IsBody};
ghost use Rattle.mv_syntax.specs.Expressions.{IsExpression};
ghost use Rattle.mv_syntax.specs.Sections.{Parts};
ghost use Rattle.mv_syntax.specs.Modules.{AreBytes, Spells, module_at};
ghost use Rattle.mv_syntax.specs.FirstFaults.{HasFault, Settled};
ghost use Rattle.mv_syntax.specs.declared.instr.Instr.{Instr};
ghost use Rattle.mv_syntax.specs.declared.fault.ReadFault.{ReadFault};
ghost use Rattle.mv_syntax.specs.declared.fault.ReadKind.TheVariants.{Cut};

/// The numbers of the grammar are the standard's, as its rules have them (WebAssembly Core 1.0, 5.2.2): bytes that the
/// grammar has for a number are what the rules have for it, and all that the rules have are bytes.
pub fn numbers_are_standard()
    ensures unsigned { (text : List ℕ) (n : ℕ) → (AreBytes text × number32.spells text n) ↔ IsUnsigned 32 text n }
    ensures signed32 { (text : List ℕ) (n : ℕ) → (AreBytes text × s32.spells text n) ↔ IsSigned 32 text n }
    ensures signed64 { (text : List ℕ) (n : ℕ) → (AreBytes text × s64.spells text n) ↔ IsSigned 64 text n }
{}

/// The bodies, of which a tree is left at each place, are the standard's expressions (5.4.1 and 5.4.6): lists of
/// instructions, each block with its `end`, and the `end` of the whole.
pub fn bodies_are_standard()
    ensures { (code : List Instr) (t : Tree) → IsBody code t ↔ IsExpression code t }
{}

/// A file spells the one module that is read from it, or none, and then it has the one first fault that is met
/// (5.5.16).
pub fn a_file_is_one_module_or_faulty()
    ensures { (bytes : List ℕ) (module_ : Parts) → Spells bytes module_ ↔ (module_at bytes ≡ Ok module_) }
{}

/// A file has a first fault exactly where it spells no module, and then one. Its place is within the file, or its end; a
/// fault of kind `Cut` is always there. It is settled by the bytes in front of its place, by what stands there and by how
/// many bytes follow.
pub fn first_faults()
    ensures none { (bytes : List ℕ) → ((module_ : Parts) → Spells bytes module_ → ⊥) ↔ ((f : ReadFault) × HasFault bytes f) }
    ensures one { (bytes : List ℕ) (f g : ReadFault) → HasFault bytes f → HasFault bytes g → f ≡ g }
    ensures within { (bytes : List ℕ) (f : ReadFault) → HasFault bytes f → f.place ≤ length bytes }
    ensures cut { (bytes : List ℕ) (f : ReadFault) → HasFault bytes f → f.kind ≡ Cut → f.place ≡ length bytes }
    ensures settled { (bytes : List ℕ) (f : ReadFault) → HasFault bytes f → Settled bytes f }
{}
