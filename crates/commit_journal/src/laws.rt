//! Laws of the definitions. Each function here does nothing: its contract is the law.

ghost use Rattle.commit_journal.specs.Commits.{BornAreConsecutive, CommitsAreEntries};
ghost use Rattle.commit_journal.specs.ProgramRoom.{EntriesFitInRoomOfProgram};

/// The entry that a firing adds to the state of the machine is one that a journal takes in.
pub fn commits_are_entries()
    ensures entry { CommitsAreEntries }
    ensures tags { BornAreConsecutive }
{}

/// What a program tells of the room is enough for the entry of any firing, whatever its actions give.
/// The program need not be sound.
pub fn entries_fit_in_room_of_program()
    ensures { EntriesFitInRoomOfProgram }
{}
