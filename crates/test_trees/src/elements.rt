//! What is asked of elements: whether they are equal, their forms and typed views, and several facts in one answer, in
//! the same words of a copy, and of the node or token that an element is; and facts of a node or a token alone.
ghost use Rattle.std.specs.Prelude.{◌≡◌, IfOk};
ghost use Rattle.cst_core.specs.Tree.{label};
ghost use Rattle.cst_core.specs.Element.{subtree};

use crate::run::hash_of;
use crate::say;
use crate::step::{CHANGED, Done, NoAnswer, Show, Step, given, kind_name, made, told};
use crate::trees::Trees;
use cst_core::ast::{BlockExpr, Fn, LetStmt, StmtList};
use cst_core::{
    AstNode, Direction, HasAttrs, SyntaxElement, SyntaxKind, SyntaxNode, SyntaxToken, same_shape,
};
use std::alloc::{AllocError, Global};
use std::hash::Hash;

/// Takes the step of this name, or asks the element of the next word, in the words after it, which stays what it is.
pub fn answer(trees: &Trees, step: &mut Step) -> Done {
    match step.name {
        "equal" => equal(trees, step),
        "form" => form(trees, step),
        "same_shape" => shape(trees, step),
        "views" => views(trees, step),
        _ => of_element(trees, step),
    }
}

fn of_element(trees: &Trees, step: &mut Step) -> Done {
    let element = trees.element(step)?;
    step.tree = element.tree();
    let before = hash_of(&element);
    ask(&element, step);
    step.demand(hash_of(&element) == before, CHANGED)
}

// What these calls give, one after another.
macro_rules! tell {
    ($type:ident, $it:ident, $step:ident: $($call:ident $(($($argument:expr),*))?)*) => {{
        $(told(
            concat!(stringify!($type), "::", stringify!($call)),
            $it.$call($step.alloc $($(, $argument)*)?),
            $step,
        );)*
    }};
}

fn ask(element: &SyntaxElement, step: &mut Step) {
    match (step.name, element) {
        ("facts" | "around" | "texts" | "lineage", _) => tell_in_each_form(element, step),
        ("tokens", SyntaxElement::Token(it)) => tell!(SyntaxToken, it, step: prev_token next_token),
        (_, SyntaxElement::Node(it)) => of_node(it, step),
        _ => step.stop(UNKNOWN),
    }
}

const UNKNOWN: NoAnswer = NoAnswer::Row("nothing that is asked has this name");

// Its children and all below it, and what a path leads to, from it or from the root of its tree, what stands at an
// offset, and what covers a range.
fn of_node(it: &SyntaxNode, step: &mut Step) {
    match step.name {
        "nodes" => tell! { SyntaxNode, it, step:
            children first_child last_child prev_sibling next_sibling
        },
        "children" => tell! { SyntaxNode, it, step:
            children_with_tokens first_child_or_token last_child_or_token first_token last_token
        },
        "descendants" => tell!(SyntaxNode, it, step: descendants descendants_with_tokens),
        "descendants_of_kind" => tell!(SyntaxNode, it, step: descendants_of_kind(step.kind())),
        "token_at_offset" => tell!(SyntaxNode, it, step: token_at_offset(step.number())),
        "covering_element" =>
            tell!(SyntaxNode, it, step: covering_element(step.number(), step.number())),
        "element_at" => tell!(SyntaxNode, it, step: element_at(&step.slots())),
        "element_of_tree" => tell!(SyntaxNode, it, step: element_of_tree(step.slots())),
        _ => step.stop(UNKNOWN),
    }
}

// Of the element, of a copy, and of a copy of the node or token that it is.
fn tell_in_each_form(element: &SyntaxElement, step: &mut Step) {
    let alloc = step.alloc;
    element.tell(step);
    of_copy("SyntaxElement::try_clone", element.try_clone(alloc), step);
    match element {
        SyntaxElement::Node(it) => of_copy("SyntaxNode::try_clone", it.try_clone(alloc), step),
        SyntaxElement::Token(it) => of_copy("SyntaxToken::try_clone", it.try_clone(alloc), step),
    }
}

fn of_copy<T: Tell + Drop, E: Drop>(call: &'static str, it: Result<T, E>, step: &mut Step) {
    let mut other = step.beside();
    if let Some(copy) = given(call, it, &mut other) {
        copy.tell(&mut other);
    }
    step.agree(&other);
}

/// What is told of an element, and of the node or the token that it is, by calls of the same names: where it stands and how
/// long it is, what stands around it, its text and its shared tree, and all that is above it and below it.
trait Tell {
    fn tell(&self, step: &mut Step);
}

macro_rules! tell_facts {
    ($type:ident, $it:ident, $step:ident: $debug:literal, $ancestors:ident $(, $text:ident)?) => {
        match $step.name {
            "facts" => {
                tell_path(concat!(stringify!($type), "::path"), $it.path($step.alloc), $step);
                stands($it.tree(), $it.slots(), $it.kind(), $it.index(), $step);
                extends($it.text_start(), $it.text_end(), $it.text_len(), $step);
                say!($step, $debug, $it);
            }
            "around" => tell! { $type, $it, $step:
                parent tree_top prev_sibling_or_token next_sibling_or_token
                siblings_with_tokens(Direction::Prev) siblings_with_tokens(Direction::Next)
            },
            "texts" => {
                tell!($type, $it, $step: $($text)? to_string green);
                $step.put(" | ");
                $it.as_green().show($step);
            }
            _ => {
                tell!($type, $it, $step: $ancestors);
                let call = concat!(stringify!($type), " as {:#?}");
                told(call, format!(in $step.alloc; "{:#?}", $it), $step);
            }
        }
    };
}

impl Tell for SyntaxElement {
    fn tell(&self, step: &mut Step) {
        tell_facts!(SyntaxElement, self, step: "{:?}", ancestors, text)
    }
}

impl Tell for SyntaxNode {
    fn tell(&self, step: &mut Step) {
        tell_facts!(SyntaxNode, self, step: "Node({:?})", ancestors, text)
    }
}

impl Tell for SyntaxToken {
    fn tell(&self, step: &mut Step) {
        if step.name == "texts" {
            step.quote(self.text());
        }
        tell_facts!(SyntaxToken, self, step: "Token({:?})", parent_ancestors)
    }
}

fn tell_path<E: Drop>(call: &'static str, called: Result<Vec<usize>, E>, step: &mut Step) {
    if let Some(path) = given(call, called, step) {
        step.path(&path);
    }
}

fn stands(tree: u64, slots: &[usize], kind: SyntaxKind, index: usize, step: &mut Step) {
    say!(step, " of {tree} at ");
    step.path(slots);
    say!(step, ", {}, slot {index}", kind_name(kind));
}

fn extends(start: u64, end: u64, len: u64, step: &mut Step) {
    say!(step, ", {start}..{end}, {len} bytes, ");
}

fn equal(trees: &Trees, step: &mut Step) -> Done {
    let (left, right) = trees.two_elements(step)?;
    Some(step.put(equality(&left, &right)))
}

fn shape(trees: &Trees, step: &mut Step) -> Done {
    let (left, right) = trees.two_nodes(step)?;
    Some(step.put(in_each_way(&[same_shape(&left, &right), same_shape(&right, &left)])))
}

// Whether something holds in each way to ask.
fn in_each_way(ways: &[bool]) -> &'static str {
    match (ways.contains(&false), ways.contains(&true)) {
        (false, _) => "yes",
        (true, true) => "in one way and not in another",
        (true, false) => "no",
    }
}

// By `==` both ways, and by the hash, which differs where these values do.
fn compare<T: Hash>(left: &T, right: &T) -> &'static str {
    let is_hash = hash_of(left) == hash_of(right);
    in_each_way(&[left == right, right == left, is_hash])
}

// As elements, and as the nodes or tokens that they are.
fn equality(left: &SyntaxElement, right: &SyntaxElement) -> &'static str {
    let by_form = match (left, right) {
        (SyntaxElement::Node(left), SyntaxElement::Node(right)) => compare(left, right),
        (SyntaxElement::Token(left), SyntaxElement::Token(right)) => compare(left, right),
        _ => "no",
    };
    let own = compare(left, right);
    if own == by_form { own } else { "in one form" }
}

// Which form an element is of, and the hash of that, by the node or token that is lent.
fn lent(element: &SyntaxElement) -> (&'static str, u64) {
    match (element.as_node(), element.as_token()) {
        (Some(it), None) => ("node", hash_of(it)),
        (None, Some(it)) => ("token", hash_of(it)),
        _ => ("both or none", 0),
    }
}

// The same by the one that is taken, and put back.
fn taken(element: SyntaxElement, copy: SyntaxElement) -> (&'static str, u64) {
    match (element.into_node(), copy.into_token()) {
        (Some(it), None) => ("node", hash_of(&SyntaxElement::from(it))),
        (None, Some(it)) => ("token", hash_of(&SyntaxElement::from(it))),
        _ => ("both or none", 0),
    }
}

fn form(trees: &Trees, step: &mut Step) -> Done {
    let element = trees.element(step)?;
    let copy = made(element.try_clone(step.alloc), step)?;
    let (lent, whole) = (lent(&element), hash_of(&element));
    let is_same = lent.1 == whole && lent == taken(element, copy);
    Some(step.put(match is_same {
        true => lent.0,
        false => "lent and not taken",
    }))
}

// The kinds of the node's views as BlockExpr, as StmtList, as LetStmt and as Fn.
fn views(trees: &Trees, step: &mut Step) -> Done {
    let node = trees.node(step)?;
    push_view::<BlockExpr>(&node, step);
    push_view::<StmtList>(&node, step);
    push_attributed_view::<LetStmt>(&node, step);
    Some(push_attributed_view::<Fn>(&node, step))
}

// What a function over any typed node knows from the trait alone.
fn view_again<T: AstNode>(alloc: Global, view: T) -> Result<T, AllocError>
    ensures { IfOk result (λ t. T.syntax_node t ≡ T.syntax_node view) }
{
    let node = view.syntax().try_clone(alloc)?;
    Ok(T::cast(node).unwrap())
}

// The name of the kind of the node's view, `none` where there is none, after a space.
fn push_view<T: AstNode>(node: &SyntaxNode, step: &mut Step) {
    step.between(" ");
    if let Some(name) = made(view_name::<T>(step.alloc, node), step) {
        step.put(name);
    }
}

fn view_name<T: AstNode>(alloc: Global, node: &SyntaxNode) -> Result<&'static str, AllocError> {
    let copy = node.try_clone(alloc)?;
    if !T::can_cast(copy.kind()) {
        return Ok(match T::cast(copy).is_some() {
            true => "a view of a kind that has none",
            false => "none",
        });
    }
    let again = view_again(alloc, T::cast(copy).unwrap())?;
    if !T::can_cast(again.syntax().kind()) || again.syntax() != node {
        return Ok("a view of another node");
    }
    Ok(kind_name(node.kind()))
}

fn push_attributed_view<T: HasAttrs>(node: &SyntaxNode, step: &mut Step) {
    push_view::<T>(node, step);
}
