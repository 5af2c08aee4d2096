//! `Direction`: which way a walk along siblings goes.

/// The way along the siblings of an element: to those after it, or back to those before it.
#[derive(Clone, Copy, Debug, PartialEq, Eq)]
pub enum Direction {
    Next,
    Prev,
}
