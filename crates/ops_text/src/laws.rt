//! Facts about the definitions alone, each the contract of a function that does nothing.

ghost use Rattle.ops_text.specs.Names.{NumbersAreOneToOne};
ghost use Rattle.ops_text.specs.Numeral.{DecimalsReadBack};

/// Among names that are distinct, numbers are one to one with bytes.
pub fn numbers_are_one_to_one()
    ensures { NumbersAreOneToOne }
{}

/// What is printed of an integer is read as that integer.
pub fn decimals_read_back()
    ensures { DecimalsReadBack }
{}
