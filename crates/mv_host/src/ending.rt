//! What a run comes to.
ghost use Rattle.std.specs.Prelude.{◌≡◌, Some, true, false};
ghost use Rattle.mv_core.specs.Cuts.{is_cut};
ghost use Rattle.mv_host.specs.Served.{IsServed};
ghost use Rattle.mv_rehearse.specs.Linked.{LineWaits};

use mv_core::Core;
use mv_history::How;
use mv_outside::{Console, Files, Kernel, Run};
use mv_rehearse::{Outcome, status_by};
use mv_version::Version;

/// The outcome of a core whose log has ended so.
pub(crate) fn end_run<V: Version, K: Kernel, C: Console, F: Files, N: Run>(
    core: Core<V, K, C, F, N>,
    how: How,
) -> Outcome<K, C, F>
    requires ended { core.status.ended ≡ Some how }
    requires uncut { is_cut core.status.ended ≡ false }
    requires line { LineWaits core.status core.line }
    requires asks { core.orders ≡ true }
    ensures served { IsServed V.behaviour N.began K.done K.faults C.coming C.said C.faults F.content F.faults result }
{
    let (kernel, console, files, log) = core.close();
    Outcome {
        status: status_by(how),
        kernel,
        console,
        files,
        log,
    }
}
