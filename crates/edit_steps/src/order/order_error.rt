//! `OrderError`: why an order is not allowed.

use std::alloc::AllocError;
use thiserror::Error;

/// Why an order is not allowed. Of several reasons the first here is given.
#[derive(Debug, PartialEq, Eq, Drop, Error)]
pub enum OrderError {
    /// A change that is not dropped is missing or there twice, or there is another number.
    #[error("NotEachOnce")]
    NotEachOnce,
    /// A change comes after its owner.
    #[error("OwnerTooEarly")]
    OwnerTooEarly,
    /// Two inserts of one gap come in the wrong order.
    #[error("GapOutOfOrder")]
    GapOutOfOrder,
    /// A token is replaced before an insert after it.
    #[error("TokenTooEarly")]
    TokenTooEarly,
    /// Memory was refused.
    #[error("Memory")]
    Memory,
}

impl From<AllocError> for OrderError {
    ghost use Rattle.std.specs.Prelude.{◌≡◌};
    ghost use Rattle.edit_steps.specs.declared.order.order_error.OrderError.{OrderError};

    ghost from_gives = { λ _ e. e ≡ OrderError.Memory };

    fn from(_: AllocError) -> OrderError {
        OrderError::Memory
    }
}
