//! The tokens that were read last.

ghost use Rattle.std.specs.Prelude.{◌≡◌, IfOk, IfErr, IfSome};
ghost use Rattle.cst_core.specs.Green.{IsTooLong};
ghost use Rattle.tree_text.specs.Refusals.{IsRefused};
ghost use Rattle.tree_text.specs.inner.Nowhere.{Nowhere};

use crate::error::ExpressionError;
use crate::kind_names::NAMED_KINDS;
use cst_core::{GreenToken, SyntaxKind};
use std::alloc::{AllocError, Global};

/// Of each kind that `SyntaxKind` names the last token, so that one that comes again, as most brackets and spaces do, is shared.
#[derive(Drop)]
pub(crate) struct LastTokens {
    // By the number of the kind.
    tokens: Vec<Option<GreenToken>>,
}

impl LastTokens {
    pub(crate) fn new(alloc: Global) -> LastTokens {
        LastTokens {
            tokens: Vec::new(alloc),
        }
    }

    /// The token of this kind and text.
    pub(crate) fn token(
        &mut self,
        alloc: Global,
        kind: SyntaxKind,
        text: &str,
    ) -> Result<GreenToken, ExpressionError>
        ensures ok { IfOk result (λ t. t ≡ record { kind = kind.0; text = text.now }) }
        ensures err { IfErr result (IsRefused Nowhere Nowhere Nowhere (IsTooLong text.now)) }
    {
        if let Some(last) = self.last(kind, text) {
            return Ok(last.share(alloc)?);
        }
        let token = GreenToken::new(alloc, kind, text).map_err(ExpressionError::of_tree)?;
        self.keep(alloc, &token)?;
        Ok(token)
    }

    // The last token of this kind, if it has this text.
    fn last(&self, kind: SyntaxKind, text: &str) -> Option<&GreenToken>
        ensures { IfSome result (λ t. t.now ≡ record { kind = kind.0; text = text.now }) }
    {
        match self.tokens.get(usize::from(kind.0)) {
            Some(Some(token)) if token.kind() == kind && token.text() == text => Some(token),
            _ => None,
        }
    }

    fn keep(&mut self, alloc: Global, token: &GreenToken) -> Result<(), AllocError> {
        let number = usize::from(token.kind().0);
        if number >= NAMED_KINDS {
            return Ok(());
        }
        for _ in self.tokens.len()..number + 1 {
            self.tokens.push(None)?;
        }
        if number < self.tokens.len() {
            self.tokens[number] = Some(token.share(alloc)?);
        }
        Ok(())
    }
}
