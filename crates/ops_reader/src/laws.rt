//! Laws of the definitions, each of which the functions' contracts cite.

ghost use Rattle.ops_reader.specs.FormRows.{AreFormRows, AreRefusedRows};
ghost use Rattle.ops_reader.specs.RuleRows.{AreConditionRows, AreActionRows};
ghost use Rattle.std.specs.Prelude.{ℕ, List};
ghost use Rattle.ops_text.specs.Names.{Names};
ghost use Rattle.ops_reader.specs.declared.form.Form.{Form};
ghost use Rattle.ops_tokens.specs.Token.{Token};
ghost use Rattle.ops_reader.specs.Exact.{ReadsFronts, ReadsTexts, HasOneReading};
ghost use Rattle.ops_reader.specs.Decided.{IsDecided};

/// Forms and names of texts, and texts that are refused.
pub fn form_rows()
    ensures forms { AreFormRows }
    ensures conditions { AreConditionRows }
    ensures actions { AreActionRows }
    ensures refused { AreRefusedRows }
{}

/// Reading token by token goes on exactly as long as the tokens begin a text, and ends between two
/// forms exactly where they are a text.
pub fn reading_is_exact()
    ensures fronts { (names : Names) (tokens : List Token) → ReadsFronts names tokens }
    ensures texts { (names : Names) (tokens : List Token) (forms : List Form) (after : Names)
        → ReadsTexts names tokens forms after }
{}

/// No text has two readings.
pub fn text_has_one_reading()
    ensures { (names : Names) (tokens : List Token) → HasOneReading names tokens }
{}

/// A text is read, or it is refused at one place for one reason, and never both.
pub fn texts_are_decided()
    ensures { (names : Names) (text : List ℕ) → IsDecided names text }
{}
