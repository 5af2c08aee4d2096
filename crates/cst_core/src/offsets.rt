//! Elements by offset: `TokenAtOffset`, and the last element whose text contains a range.

ghost use Rattle.std.specs.Prelude.{◌≡◌, IfOk, Ok, None};
ghost use Rattle.cst_core.specs.AtOffset.{token_at, covering_of};

use crate::element::SyntaxElement;
use crate::node::SyntaxNode;
use crate::token::SyntaxToken;
use green_tree::{covering_path, tokens_at};
use std::alloc::{AllocError, Global};

/// The tokens at an offset: none, the one that it is inside of or at an end of, or the two that it is between.
#[derive(Drop)]
pub enum TokenAtOffset {
    None,
    Single(SyntaxToken),
    Between(SyntaxToken, SyntaxToken),
}

impl SyntaxNode {
    /// The tokens at or below the node that touch an offset in the text of the whole tree, counted in bytes: tokens that
    /// begin there or before and end there or after. Tokens without text are passed over. It visits the way to them alone.
    pub fn token_at_offset(&self, alloc: Global, offset: u64) -> Result<TokenAtOffset, AllocError>
        ensures ok { IfOk result (λ r. r ≡ token_at self.now offset) }
        ensures none { token_at self.now offset ≡ TokenAtOffset.None → result ≡ Ok TokenAtOffset.None }
    {
        // For the proof: a node stands at the path of `self`.
        let _ = &self.green;
        let base = self.text_start();
        if offset < base {
            return Ok(TokenAtOffset::None);
        }
        let found = tokens_at(alloc, &self.green, offset - base)?;
        match found.as_slice() {
            [] => Ok(TokenAtOffset::None),
            [token] => Ok(TokenAtOffset::Single(self.token_below(alloc, token)?)),
            [left, right, ..] => {
                let left = self.token_below(alloc, left)?;
                Ok(TokenAtOffset::Between(left, self.token_below(alloc, right)?))
            }
        }
    }

    /// The last element in document order, of the node and all below it, whose text contains the bytes from `start` up to
    /// `end` in the text of the whole tree; where there are such bytes, it is the deepest. `None` where they are not all
    /// within the node's text or `end` comes before `start`. It visits the way to it alone.
    pub fn covering_element(
        &self,
        alloc: Global,
        start: u64,
        end: u64,
    ) -> Result<Option<SyntaxElement>, AllocError>
        ensures ok { IfOk result (λ r. r ≡ covering_of self.now start end) }
        ensures none { covering_of self.now start end ≡ None → result ≡ Ok None }
    {
        // For the proof: a node stands at the path of `self`.
        let _ = &self.green;
        let base = self.text_start();
        if start < base || end < start {
            return Ok(None);
        }
        match covering_path(alloc, &self.green, start - base, end - base)? {
            Some(path) => self.element_at(alloc, &path),
            None => Ok(None),
        }
    }
}
