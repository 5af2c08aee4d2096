//! `ElementList`: the elements of a payload.

ghost use Rattle.std.specs.Prelude.{◌≡◌};

use cst_core::SyntaxElement;
use std::marker::Model;

/// The payload of a change: elements in order.
#[derive(Drop)]
pub struct ElementList {
    items: Vec<SyntaxElement>,
}

impl Model for ElementList {
    ghost use Rattle.std.specs.Prelude.{List};
    ghost use Rattle.std.specs.Coded.{coded_list};
    ghost use Rattle.cst_core.specs.declared.element.SyntaxElement.{SyntaxElement};
    ghost use Rattle.edit_change.specs.inner.Codes.{syntax_element_code};

    ghost Value = { List SyntaxElement };

    ghost coded = { coded_list syntax_element_code };

    ghost view = { λ a. a.items.items };
}

impl From<Vec<SyntaxElement>> for ElementList {
    ghost use Rattle.std.specs.Prelude.{◌≡◌};

    ghost from_gives = { λ items list. list ≡ items.items };

    fn from(items: Vec<SyntaxElement>) -> ElementList {
        ElementList { items }
    }
}

impl ElementList {
    /// The elements, in order.
    pub fn as_slice(&self) -> &[SyntaxElement]
        ensures { result.now ≡ self.now }
    {
        self.items.as_slice()
    }

    /// The vector, without taking memory.
    pub fn into_vec(self) -> Vec<SyntaxElement>
        ensures { result.items ≡ self }
    {
        self.items
    }
}
