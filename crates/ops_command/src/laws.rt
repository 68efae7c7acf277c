//! A law of the promise.

ghost use Rattle.ops_command.specs.declared.status.Report.{Report};
ghost use Rattle.ops_command.specs.Call.{Call};
ghost use Rattle.ops_command.specs.Promise.{KeepsPromise};
ghost use Rattle.ops_command.specs.Decided.{HasNoFault, IsDecided};

/// Where no count of faults rose, the words and the files that are told decide the status of a report that keeps the
/// promise, but for want of memory.
pub fn answers_are_decided()
    ensures { (call : Call) (report : Report) → KeepsPromise call report → HasNoFault call
        → IsDecided call report.status }
{}
