//! What a command line asks for.

use mv_calls::{Bytes, Texts};

/// What a command line asks for, with its words (docs/GUIDE.md, "Words"). The addresses that `run`, `rehearse` and `serve` may
/// name are what `places` gives.
#[derive(Debug, Drop)]
pub enum Command {
    /// `run OLD [ARG ..]`.
    Run {
        old: Bytes,
        args: Texts,
    },
    /// `rehearse OLD SCHEDULE [ARG ..] [--ring N] [--log PATH]`; `ring` is 4 to 4,096.
    Rehearse {
        old: Bytes,
        schedule: Bytes,
        args: Texts,
        ring: u32,
        log: Option<Bytes>,
    },
    /// `serve OLD [ARG ..] [--ring N] [--log PATH]`; `ring` is 4 to 4,096.
    Serve {
        old: Bytes,
        args: Texts,
        ring: u32,
        log: Option<Bytes>,
    },
    /// `check MODULE`.
    Check {
        path: Bytes,
    },
    /// `rules FWD`.
    Rules {
        forward: Bytes,
    },
    /// `audit LOG OLD [M FWD REV ..]`; the files of the updates come in threes.
    Audit {
        log: Bytes,
        old: Bytes,
        updates: Texts,
    },
    /// `show LOG`.
    Show {
        log: Bytes,
    },
    /// `assemble TEXT OUT`.
    Assemble {
        text: Bytes,
        to: Bytes,
    },
    /// `load N`; `connections` is 1 to 10,000.
    Load {
        connections: u32,
    },
    /// `--help`, alone or behind a command word.
    Help,
    /// `--version`, alone.
    Version,
}

/// The words are outside the grammar.
#[derive(Clone, Copy, PartialEq, Eq, Debug)]
pub struct BadWords;
