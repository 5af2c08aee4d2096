//! `SyntaxAnnotation`, what elements are registered with, and `Annotations`, the source from which callers draw them.

ghost use Rattle.std.specs.Prelude.{◌≡◌, max, Some, option_and_then};
ghost use Rattle.edit_plan.specs.Annotation.{annotation_after};

use std::marker::Model;

/// A mark that elements are registered with, to be found again in the new tree. Two are equal, and stand at one place of the
/// order, exactly if their numbers are equal; equal ones hash alike.
#[derive(Debug, Clone, Copy, PartialEq, Eq, PartialOrd, Ord, Hash)]
pub struct SyntaxAnnotation {
    number: u32,
}

impl Model for SyntaxAnnotation {
    ghost use Rattle.std.specs.Prelude.{ℕ};

    ghost Value = { ℕ };

    ghost view = { λ a. a.number };

    ghost inverse = { λ n. record { number = n } };
}

/// A source of annotations: the first one and those above it, up to 4,294,967,295, each given once.
#[derive(Drop)]
pub struct Annotations {
    next: Option<u32>,
}

// The number that comes next, if there is one.
impl Model for Annotations {
    ghost use Rattle.std.specs.Prelude.{ℕ, Option};

    ghost Value = { Option ℕ };

    ghost view = { λ a. a.next };
}

impl Annotations {
    /// The source that begins at `first`; 0 counts as 1.
    pub fn new(first: u32) -> Annotations
        ensures { result ≡ Some (max first 1) }
    {
        Annotations {
            next: Some(first.max(1)),
        }
    }

    /// The next annotation, which is then given. `None` once 4,294,967,295 was given, and from then on.
    pub fn next(&mut self) -> Option<SyntaxAnnotation>
        ensures number { result ≡ self.old }
        ensures given { self.new ≡ option_and_then annotation_after self.old }
    {
        let number = self.next?;
        self.next = number.checked_add(1);
        Some(SyntaxAnnotation { number })
    }
}
