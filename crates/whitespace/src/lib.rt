//! Indentation levels, trees indented and dedented, and the whitespace round new elements.
#![tactic(auto)]

mod child_pairs;
mod indent_error;
mod level;
mod lone_token;
mod roots;
mod shift;
mod space;
mod space_error;
mod space_round;
mod space_rule;

pub use child_pairs::map_children;
pub use indent_error::IndentError;
pub use level::IndentLevel;
pub use lone_token::{token, whitespace};
pub use roots::{dedent, indent};
pub use space_error::SpaceError;
pub use space_round::elements_with_spaces;
