//! Laws of parts that follow a state. Each function here does nothing: its contract is the law.

ghost use Rattle.firing_workers.specs.FollowingLaws.{ArrivalIsFollowed, CandidatesAreLeft, CommitIsFollowed, MarkingIsFollowed, MatchingIsSettled, NoneIsQuiet, RemovalIsFollowed};

/// What is left to fire is told by a part that follows.
pub fn candidates_are_what_is_left()
    ensures candidates { CandidatesAreLeft }
    ensures none { NoneIsQuiet }
    ensures settled { MatchingIsSettled }
{}

/// A part goes on following where it takes in what a firing changes.
pub fn firings_are_followed()
    ensures marking { MarkingIsFollowed }
    ensures removal { RemovalIsFollowed }
    ensures arrival { ArrivalIsFollowed }
    ensures commit { CommitIsFollowed }
{}
