//! The words that items begin with.

/// What the first word of an item says.
#[derive(Clone, Copy)]
pub enum Verb {
    Read,
    Write,
    Accept,
    Close,
    Shutdown,
    Yield,
    Clock,
    Random,
}
