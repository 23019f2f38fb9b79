//! What all calls of a machine share.

use mv_memory::Memory;

/// The memory, the globals, and the functions that the table holds (WebAssembly Core 1.0, 4.2.3).
#[derive(Drop)]
pub struct Store {
    pub memory: Memory,
    pub globals: Vec<u64>,
    pub table: Vec<Option<u32>>,
}
