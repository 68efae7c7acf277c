//! Worked examples of the definitions. Each function here does nothing: its contract says that the rows
//! of a record of `specs/Examples` hold.

ghost use Rattle.firing_core.specs.Examples.Claims.{AreBudgetRows, AreClaimedRows, AreEndingRows, AreKeyRows, AreRegionRows, AreStripeRows};

/// What is claimed, and what is refused because it was claimed, has fired or isn't there.
pub fn claims()
    ensures { AreClaimedRows }
{}

/// Which candidates are in each other's way.
pub fn locks()
    ensures stripes { AreStripeRows }
    ensures regions { AreRegionRows }
    ensures keys { AreKeyRows }
{}

/// How a core ends, and what may happen then.
pub fn endings()
    ensures budget { AreBudgetRows }
    ensures others { AreEndingRows }
{}
