//! The demonstration guests, as assembler texts (docs/FORMATS.md, "Demonstration guests").

ghost use Rattle.std.specs.Prelude.{◌≡◌};
ghost use Rattle.mv_load.specs.Guests.{text_of};

mod bang;
mod new;
mod old;
mod old_bang;

/// A demonstration guest: a server that answers each piece that a connection sends, one connection at a time, and counts
/// its answers. Each can take over from each other at a point.
#[derive(Clone, Copy, Debug, PartialEq, Eq)]
pub enum Demo {
    /// Counts in 32 bits, and answers `OK`.
    Old,
    /// Counts in 64 bits, and answers `+OK`.
    New,
    /// As `New`, but traps behind a piece that begins with `!`.
    Bang,
    /// As `Old`, but traps behind a piece that begins with `!`.
    OldBang,
}

/// The assembler text of a guest.
pub fn guest_text(which: Demo) -> &'static [u8]
    ensures { result.now ≡ text_of which }
{
    let text = match which {
        Demo::Old => old::TEXT,
        Demo::New => new::TEXT,
        Demo::Bang => bang::TEXT,
        Demo::OldBang => old_bang::TEXT,
    };
    text.as_bytes()
}
