//! Worked examples of the definitions. Each function here does nothing: its contract says that the rows
//! of a record of `specs/Examples` hold.

ghost use Rattle.match_network.specs.Examples.Work.{AreWorkRows};

/// How much work elements make: where keys are equal it doesn't grow with what has other keys.
pub fn join_work()
    ensures { AreWorkRows }
{}
