//! `Among`: where a change alters the children of a node.

ghost use Rattle.std.specs.Prelude.{◌≡◌};
ghost use Rattle.edit_steps.specs.inner.Widths.{index_of, count_of};

/// Where a change alters the children of a node.
#[derive(Clone, Copy)]
pub(crate) enum Among {
    /// In the gap before the child in this slot, or, past the last child, after it.
    Gap(usize),
    /// How many children, from the child in the first of these slots on.
    Slots { first: usize, count: usize },
}

impl Among {
    // The slot before which it begins.
    pub(crate) fn index(self) -> usize
        ensures { result ≡ index_of self }
    {
        match self {
            Among::Gap(index) => index,
            Among::Slots { first, .. } => first,
        }
    }

    // How many children it replaces.
    pub(crate) fn count(self) -> usize
        ensures { result ≡ count_of self }
    {
        match self {
            Among::Gap(_) => 0,
            Among::Slots { count, .. } => count,
        }
    }
}
