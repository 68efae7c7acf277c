//! The forms of a text.

ghost use Rattle.std.specs.Prelude.{◌≡◌, ◌↔◌, [], length, IsTrue};
ghost use Rattle.ops_reader.specs.Shape.{AreForms};

use crate::Form;
use ops_text::Sequence;
use std::marker::Model;

/// Forms in the order of their text. They have the shape that the grammar asks.
#[derive(Debug, Drop)]
pub struct Forms {
    forms: Sequence<Form>,
}

impl Model for Forms {
    ghost use Rattle.std.specs.Prelude.{List};
    ghost use Rattle.std.specs.Coded.{codes};
    ghost use Rattle.ops_reader.specs.declared.form.Form.{Form};
    ghost use Rattle.ops_reader.specs.contracts.form.FormOperand as operand;
    ghost use Rattle.ops_reader.specs.Shape.{AreForms};

    ghost Value = { List Form };

    ghost coded = { Prim.hlevel (codes, operand.the_row.coded) };

    ghost view = { λ f. f.forms };

    ghost invariant = { λ f. AreForms f.forms };
}

impl Forms {
    pub(crate) fn new(forms: Sequence<Form>) -> Forms
        requires { AreForms forms }
        ensures { result ≡ forms }
    {
        Forms { forms }
    }

    /// The forms in the order of their text.
    pub fn as_slice(&self) -> &[Form]
        ensures forms { result.now ≡ self.now }
        ensures shape { AreForms self.now }
    {
        self.forms.as_slice()
    }

    /// How many forms there are.
    pub fn len(&self) -> u32
        ensures { result ≡ length self.now }
    {
        self.forms.len() as u32
    }

    pub fn is_empty(&self) -> bool
        ensures { IsTrue result ↔ (self.now ≡ []) }
    {
        self.forms.is_empty()
    }
}
