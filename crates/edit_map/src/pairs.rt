//! Pairs of a node and its copy, in lists in which no node has two.

ghost use Rattle.std.specs.Prelude.{◌≡◌, ◌<◌, ◌≤◌, ◌+◌, [], ◌∷◌, ◌++◌, length, map, OnOk, reverse};
ghost use Rattle.std.specs.Vec.{vec_len, vec_capacity};
ghost use Rattle.cst_core.specs.Element.{Element};
ghost use Rattle.edit_map.specs.Builder.{IsMadeOf};
ghost use Rattle.edit_map.specs.inner.Climbing.{cell_of, IsNumbered};

use cst_core::SyntaxNode;
use path_table::PathTable;
use std::alloc::{AllocError, Global};

// Puts clones of two nodes after the pairs of a list.
pub(crate) fn push_clones(
    alloc: Global,
    pairs: &mut Vec<(SyntaxNode, SyntaxNode)>,
    input: &SyntaxNode,
    output: &SyntaxNode,
) -> Result<(), AllocError>
    ensures { OnOk result (pairs.new.items ≡ pairs.old.items ++ (input.now, output.now) ∷ []) }
{
    let input = input.try_clone(alloc)?;
    let output = output.try_clone(alloc)?;
    pairs.push((input, output))?;
    Ok(())
}

// Puts a pair in, in place of the one that its first node has. Where it has none there is room for one more.
fn put(
    pairs: &mut Vec<(SyntaxNode, SyntaxNode)>,
    numbers: &mut PathTable<usize>,
    cell: usize,
    pair: (SyntaxNode, SyntaxNode),
)
    requires has_room { vec_len pairs.old < vec_capacity pairs.old }
    requires cell { cell_of numbers.old pair.0 ≡ Some cell }
    requires numbered { IsNumbered pairs.old.items numbers.old }
    ensures made { IsMadeOf (pair ∷ pairs.old.items) pairs.new.items }
    ensures numbered { IsNumbered pairs.new.items numbers.new }
    ensures cells { (e : Element) → cell_of numbers.new e ≡ cell_of numbers.old e }
    ensures len { vec_len pairs.new ≤ vec_len pairs.old + 1 }
    ensures capacity { vec_capacity pairs.new ≡ vec_capacity pairs.old }
{
    match numbers.at(Some(cell)) {
        Some(number) => pairs[number] = pair,
        None => {
            numbers.set(cell, pairs.len());
            pairs.push_reserved(pair);
        }
    }
}

// Puts pairs in, one after another. There is room for all of them.
pub(crate) fn put_all(
    pairs: &mut Vec<(SyntaxNode, SyntaxNode)>,
    numbers: &mut PathTable<usize>,
    cells: &[usize],
    new: Vec<(SyntaxNode, SyntaxNode)>,
)
    requires has_room { vec_len pairs.old + length new.items ≤ vec_capacity pairs.old }
    requires cells { map Some cells.now ≡ map (λ pair. cell_of numbers.old pair.0) new.items }
    requires numbered { IsNumbered pairs.old.items numbers.old }
    ensures made { IsMadeOf (reverse new.items ++ pairs.old.items) pairs.new.items }
    ensures numbered { IsNumbered pairs.new.items numbers.new }
{
    for (cell, pair) in cells.iter().zip(new) {
        put(pairs, numbers, *cell, pair);
    }
}
