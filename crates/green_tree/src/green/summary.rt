//! `Summary`: what a node knows of its children, so that `length` and `has_token` read a field.

ghost use Rattle.std.specs.Prelude.{◌≡◌, ◌≤◌, ◌+◌, ◌||◌, ◌∷◌, [], min, false, IfSome};
ghost use Rattle.green_tree.specs.Tree.{text};
ghost use Rattle.green_tree.specs.Green.{capped_length, length_limit};
ghost use Rattle.green_tree.specs.GreenElement.{element_tree};
ghost use Rattle.green_tree.specs.inner.HasToken.{has_token, TellsToken};
ghost use Rattle.green_tree.specs.inner.Summaries.{Summarizes, IsExchanged};

use crate::green::{GreenElement, LENGTH_LIMIT};

/// What a node knows of its children, so that nobody goes through them for it again.
#[derive(Clone, Copy)]
pub(super) struct Summary {
    // How many bytes their texts have together, as far as the limit.
    pub(super) length: u64,
    // Whether one is a token or has one below it.
    pub(super) has_token: bool,
    // The greatest of their ranks: 0 where none is a node.
    pub(super) greatest: u8,
    // The rank of a node over them: how deep calls nest in a walk that goes on in the child of the greatest rank by a loop.
    pub(super) rank: u8,
}

impl Summary {
    // What a node over no children knows.
    fn empty() -> Summary
        ensures length { result.length ≡ 0 }
        ensures token { result.has_token ≡ false }
    {
        Summary {
            length: 0,
            has_token: false,
            greatest: 0,
            rank: 1,
        }
    }

    // With one child more. No rank is greater than the logarithm of how many nodes there are, and one.
    fn with_child(self, child: &GreenElement) -> Summary
        requires { self.length ≤ 4294967296 }
        ensures length { result.length ≡ min (self.length + capped_length (text (element_tree child.now))) length_limit }
        ensures token { result.has_token ≡ (self.has_token || has_token (element_tree child.now)) }
    {
        let below = child.rank();
        let rank = if below > self.greatest {
            self.rank.max(below)
        } else if below == self.greatest && below > 0 {
            self.rank.max(below.saturating_add(1))
        } else {
            self.rank
        };
        Summary {
            length: (self.length + child.length()).min(LENGTH_LIMIT),
            has_token: self.has_token || child.has_token(),
            greatest: self.greatest.max(below),
            rank,
        }
    }

    // What a node over these children knows.
    pub(super) fn of(children: &[GreenElement]) -> Summary
        ensures { Summarizes children.now result }
    {
        let mut summary = Summary::empty();
        for child in children {
            summary = summary.with_child(child);
        }
        summary
    }

    // The same of one child.
    pub(super) fn of_child(child: &GreenElement) -> Summary
        ensures { Summarizes (child.now ∷ []) result }
    {
        Summary::empty().with_child(child)
    }

    // Whether there is a token once some children are exchanged for others. `None` where the last one may be gone.
    fn token_left(self, removed: Summary, added: Summary) -> Option<bool>
        ensures token { IfSome result (λ b. b ≡ (self.has_token || added.has_token)) }
        ensures kept { IfSome result (λ b. (removed.has_token || added.has_token) ≡ added.has_token) }
    {
        if removed.has_token && !added.has_token {
            return None;
        }
        Some(self.has_token || added.has_token)
    }

    // The same, by a look at all children where that tells nothing else. It ends at the first token.
    fn token_after(self, removed: Summary, added: Summary, children: &[GreenElement]) -> bool
        requires { IsExchanged children.now self removed added }
        ensures { TellsToken children.now result }
    {
        match self.token_left(removed, added) {
            Some(has_token) => has_token,
            None => any_token(children),
        }
    }

    // What is known of all children, some of which were just exchanged for others. Only a look at all of them tells where the text is
    // longer than is counted, or the rank may rise. The rank never sinks, so it stays a bound of how deep calls nest.
    pub(super) fn after_exchange(
        self,
        removed: Summary,
        added: Summary,
        children: &[GreenElement],
    ) -> Summary
        requires { IsExchanged children.now self removed added }
        ensures { Summarizes children.now result }
    {
        let may_rise = added.greatest >= self.rank && added.rank > removed.greatest;
        if self.length >= LENGTH_LIMIT || may_rise {
            return Summary::of(children);
        }
        let rest = self.length - removed.length;
        Summary {
            length: (rest + added.length).min(LENGTH_LIMIT),
            has_token: self.token_after(removed, added, children),
            greatest: self.greatest.max(added.greatest),
            rank: self.rank,
        }
    }
}

fn any_token(children: &[GreenElement]) -> bool
    ensures { TellsToken children.now result }
{
    children.iter().any(|child| child.has_token())
}
