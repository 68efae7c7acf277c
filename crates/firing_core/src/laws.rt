//! Laws of cores. Each function here does nothing: its contract is the law.

ghost use Rattle.firing_core.specs.CoreLaws.{DroppingKeepsLawful, EventsGoOn, EventsKeepLawful, FiredMakeBases, FiringKeepsLawful, FittingIsDecided, LocksTellClashes};

/// Whatever happens to a lawful core, it stays lawful and goes on.
pub fn events_keep_lawful()
    ensures lawful { EventsKeepLawful }
    ensures goes_on { EventsGoOn }
{}

/// A core without claims that fires at once stays lawful, and so does one that drops its claims.
pub fn cores_stay_lawful()
    ensures firing { FiringKeepsLawful }
    ensures dropping { DroppingKeepsLawful }
{}

/// What the event of a claim asks of a candidate, as a test, is that it fits.
pub fn fitting_is_decided()
    ensures { FittingIsDecided }
{}

/// No lock is busy for a candidate exactly where no claim that stands is in its way.
pub fn locks_tell_clashes()
    ensures { LocksTellClashes }
{}

/// Where a lawful core has come, a run of its program may begin anew, as long as tags are left: with its
/// memory, its next tag and the choices that are fired.
pub fn fired_make_bases()
    ensures { FiredMakeBases }
{}
