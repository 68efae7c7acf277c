//! A row with the elements of its places.

ghost use Rattle.std.specs.Prelude.{◌≡◌};
ghost use Rattle.match_network.specs.Levels.{HaveCome};
ghost use Rattle.match_network.specs.Row.{elements_of};

use crate::Arrivals;
use join_tests::Row;
use rule_base::ElementView;
use std::marker::Model;

/// The elements of a row, where they lie.
#[derive(Drop)]
pub(crate) struct RowView<'a> {
    row: &'a [u32],
    arrivals: &'a Arrivals,
}

impl<'a> Model for RowView<'a> {
    ghost use Rattle.std.specs.Prelude.{List};
    ghost use Rattle.rule_base.specs.declared.element.Element.{Element};
    ghost use Rattle.match_network.specs.Levels.{HaveCome};
    ghost use Rattle.match_network.specs.Row.{elements_of};

    ghost Value = { List Element };

    ghost view = { λ r. elements_of r.arrivals.now.came r.row.now };

    ghost invariant = { λ r. HaveCome r.arrivals.now.came r.row.now };
}

impl<'a> RowView<'a> {
    /// The elements of these places, each of which came.
    pub(crate) fn new(row: &'a [u32], arrivals: &'a Arrivals) -> RowView<'a>
        requires { HaveCome arrivals.now.came row.now }
        ensures { result ≡ elements_of arrivals.now.came row.now }
    {
        RowView { row, arrivals }
    }
}

impl<'a> Row for RowView<'a> {
    ghost elements = { λ r. r };

    fn element(&self, condition: usize) -> Option<ElementView<'_>> {
        match self.row.get(condition) {
            Some(place) => Some(self.arrivals.at(*place)),
            None => None,
        }
    }
}
