//! Laws of the writer, for the crates that build modules. The functions do nothing; they carry the laws.
ghost use Rattle.mv_syntax.specs.Sections.{Parts};
ghost use Rattle.mv_syntax.specs.Modules.{HasSpelling, IsSpelled};
ghost use Rattle.mv_writer.specs.Written.{written};
ghost use Rattle.mv_writer.specs.Writable.{IsWritable};

/// Parts whose code is closed, whose instructions can be spelled, whose names are UTF-8, whose numbers and bytes are in
/// range and under the limits of this host, and whose shortest spelling has fewer than 2^32 bytes are those of a module:
/// it is one of their spellings (WebAssembly Core 1.0, section 5). So who builds such parts has what the type `Module` asks.
pub fn writable_parts_are_spelled()
    ensures spelled { (p : Parts) → IsWritable p → IsSpelled (written p) p }
    ensures has_spelling { (p : Parts) → IsWritable p → HasSpelling p }
{}
