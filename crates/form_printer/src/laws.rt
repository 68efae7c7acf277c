//! Laws of the canonical text.

ghost use Rattle.form_printer.specs.RoundTrip.{ReadsBack, TextFormsAreNamed};

/// Each number of a name in forms that were read is that of a name, so they may be printed.
pub fn text_forms_are_named()
    ensures { TextFormsAreNamed }
{}

/// The canonical text of forms that were read is read as those forms, and gives no new numbers.
pub fn forms_are_read_back()
    ensures { ReadsBack }
{}
