//! Walks over flat code, to the end of open blocks.
ghost use Rattle.std.specs.Prelude.{◌≡◌, ◌≤◌, ◌<◌, length, drop};
ghost use Rattle.std.specs.Option.{option_map};
ghost use Rattle.mv_syntax.specs.Tree.{rests_at, IsOpen, open_after, ends_list, with_other};

use mv_syntax::Instr;

/// How many blocks are open behind the instruction.
fn depth_after(instr: &Instr, depth: usize) -> usize
    requires above { instr.now ≡ Instr.End → 0 < depth }
    requires below { depth < usize.MAX }
    ensures { result ≡ open_after instr.now depth }
{
    match instr {
        Instr::Block(_) | Instr::Loop(_) | Instr::If(_) => depth + 1,
        Instr::End => depth - 1,
        _ => depth,
    }
}

/// The place behind the ends of so many open blocks, the innermost first.
pub fn past_ends(code: &[Instr], start: usize, count: usize) -> usize
    requires { IsOpen code.now start count }
    ensures behind { rests_at code.now result ≡ option_map (drop count) (rests_at code.now start) }
{
    let mut at = start;
    let mut depth = count;
    while depth > 0 {
        depth = depth_after(&code[at], depth);
        at += 1;
    }
    at
}

/// Whether the instruction ends a list of instructions.
pub fn is_list_end(instr: &Instr) -> bool
    ensures { result ≡ ends_list instr.now }
{
    matches!(instr, Instr::Else | Instr::End)
}

/// The place of the other list of an `if`, from the start of its first list: behind its `else`, or at its `end`.
pub fn other_list(code: &[Instr], start: usize) -> usize
    requires { IsOpen code.now start 1 }
    ensures { rests_at code.now result ≡ option_map with_other (rests_at code.now start) }
{
    let mut at = start;
    let mut inner = 0;
    loop {
        let instr = &code[at];
        if inner == 0 && is_list_end(instr) {
            return match instr {
                Instr::Else => at + 1,
                _ => at,
            };
        }
        inner = depth_after(instr, inner);
        at += 1;
    }
}
