//! Changes of a tree: where each aims, its payload and what it replaces, and which lie inside which.
#![tactic(auto)]

mod aimed;
mod change;
mod change_aims;
mod change_text;
mod clash;
mod element_like;
mod element_list;
mod fate;
mod fits;
mod native;
mod one_node;
mod order;
mod planned;
mod position;
mod staged;
mod trial;

pub use aimed::{AimForm, Aimed};
pub use change::Change;
pub use change_aims::{
    aim_path, green_payload, node_for_root, numbered_aim, numbered_aim_from, slot_after,
};
pub use change_text::Style;
pub use clash::{clash_of, first_clash};
pub use element_like::Element;
pub use element_list::ElementList;
pub use fate::{Fate, fates};
pub use fits::{is_node, is_one_node, is_range, is_root};
pub use native::{is_native, is_native_node};
pub use one_node::only_node;
pub use order::{numbers, sorted_aims, starting_at};
pub use planned::Planned;
pub use position::Position;
pub use staged::{owner_of, staged_path};
pub use trial::trial_source;
