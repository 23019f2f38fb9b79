//! The locals of a function.
ghost use Rattle.std.specs.Prelude.{◌≡◌, ◌≤◌, ◌+◌, ◌++◌, [], length, replicate, slice_get, OnOk, OnErr};
ghost use Rattle.mv_syntax.specs.LocalRuns.{spread, AreRising};

use crate::ops::ValType;
use std::alloc::{AllocError, Global};
use std::marker::Model;

/// Locals of one type, up to an end: the number of locals to the last of them.
#[derive(Clone, Copy, Debug)]
pub struct LocalRun {
    pub end: usize,
    pub vtype: ValType,
}

/// The types of a function's locals, which contracts see one by one. They are kept in runs, so that a run takes the same
/// place however many locals it has.
#[derive(Debug, Drop)]
pub struct Locals {
    runs: Vec<LocalRun>,
}

impl Model for Locals {
    ghost use Rattle.std.specs.Prelude.{List};
    ghost use Rattle.mv_syntax.specs.declared.ops.ValType.{ValType};
    ghost use Rattle.mv_syntax.specs.LocalRuns.{spread, AreRising};

    ghost Value = { List ValType };

    ghost view = { λ a. spread 0 a.runs.items };

    ghost invariant = { λ a. AreRising 0 a.runs.items };
}

impl Locals {
    /// No locals.
    pub fn new(alloc: Global) -> Locals
        ensures { result ≡ [] }
    {
        Locals {
            runs: Vec::new(alloc),
        }
    }

    /// How many locals there are.
    pub fn len(&self) -> usize
        ensures { result ≡ length self.now }
    {
        let runs = self.runs.as_slice();
        let kept = runs.len();
        if kept > 0 { runs[kept - 1].end } else { 0 }
    }

    /// The type of a local; none behind the last one. The time grows as the logarithm of the number of runs.
    pub fn get(&self, index: usize) -> Option<ValType>
        ensures { result ≡ slice_get self.now index }
    {
        let runs = self.runs.as_slice();
        let at = runs.partition_point(|run| run.end <= index);
        if at < runs.len() {
            Some(runs[at].vtype)
        } else {
            None
        }
    }

    /// The runs, each with a local at least.
    pub fn runs(&self) -> &[LocalRun]
        ensures spread { spread 0 result.now ≡ self.now }
        ensures rising { AreRising 0 result.now }
    {
        self.runs.as_slice()
    }

    /// So many locals of one type more. The error is want of memory, and nothing changes.
    pub fn push_run(&mut self, count: usize, vtype: ValType) -> Result<(), AllocError>
        requires room { length self.old + count ≤ usize.MAX }
        ensures ok { OnOk result (self.new ≡ self.old ++ replicate count vtype) }
        ensures err { OnErr result (self.new ≡ self.old) }
    {
        if count == 0 {
            return Ok(());
        }
        let end = self.len() + count;
        let kept = self.runs.len();
        if kept > 0 && self.runs[kept - 1].vtype == vtype {
            self.runs[kept - 1] = LocalRun { end, vtype };
            return Ok(());
        }
        self.runs.push(LocalRun { end, vtype })?;
        Ok(())
    }
}
