//! `TreeIds`: the source of tree numbers, which each call that makes a tree draws from.

ghost use Rattle.std.specs.Prelude.{ℕ, ◌≡◌, ◌↔◌, ◌+◌, IfSome, IsNone, OnSome, IfNone, IsTrue};
ghost use Rattle.cst_core.specs.TreeIds.{IsSpent};

use std::marker::Model;

/// A source of tree numbers: the first one and those above it, up to 2^64 - 2, each given once.
///
/// Trees whose numbers come from one source have different numbers, so an element value's number and path tell which
/// element of which tree it stands for.
#[derive(Drop)]
pub struct TreeIds {
    next: u64,
}

// The number that comes next; 2^64 - 1 once there is none.
impl Model for TreeIds {
    ghost use Rattle.std.specs.Prelude.{ℕ};

    ghost Value = { ℕ };

    ghost view = { λ ids. ids.next };
}

impl TreeIds {
    /// The source that begins at `first`. It is spent at once where that is 2^64 - 1.
    pub fn new(first: u64) -> TreeIds
        ensures { result ≡ first }
    {
        TreeIds { next: first }
    }

    /// Whether no number is left.
    pub fn is_spent(&self) -> bool
        ensures { IsTrue result ↔ IsSpent self.now }
    {
        self.next == u64::MAX
    }

    /// What `next` would answer.
    pub fn peek(&self) -> Option<u64>
        ensures spent { IsNone result ↔ IsSpent self.now }
        ensures number { IfSome result (λ n. n ≡ self.now) }
    {
        if self.is_spent() {
            None
        } else {
            Some(self.next)
        }
    }

    /// The next number, which is then given. `None` once the source is spent, and from then on.
    pub fn next(&mut self) -> Option<u64>
        ensures spent { IsNone result ↔ IsSpent self.old }
        ensures number { IfSome result (λ n. n ≡ self.old) }
        ensures given { OnSome result (self.new ≡ self.old + 1) }
        ensures for_good { IfNone result (self.new ≡ self.old) }
    {
        let number = self.peek()?;
        self.next = number + 1;
        Some(number)
    }
}
