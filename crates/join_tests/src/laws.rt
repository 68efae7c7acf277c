//! Laws of the definitions. Each function here does nothing: its contract is the law.

ghost use Rattle.join_tests.specs.JoinLaws.{HashesAreEqual, KeysAreEqual, RowsGoOn, RowsGrow};

/// Equal keys are equal values, and have equal hashes.
pub fn keys_find_what_joins()
    ensures keys { KeysAreEqual }
    ensures hashes { HashesAreEqual }
{}

/// A row grows by an element that joins it, which says nothing new of what was there.
pub fn rows_grow()
    ensures grow { RowsGrow }
    ensures go_on { RowsGoOn }
{}
