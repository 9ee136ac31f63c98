ghost use Rattle.std.specs.Prelude.{◌≡◌};
ghost use Rattle.vba_base.specs.declared.fault.OrMemory.TheVariants as answers;

use std::alloc::{AllocError, AllocFailed};

/// Memory ran out. It says nothing of what would have been answered.
#[derive(Clone, Copy, Debug, PartialEq, Eq)]
pub struct NoMemory;

/// A fault that the input has, or want of memory.
#[derive(Clone, Copy, Debug, PartialEq, Eq)]
pub enum OrMemory<E> {
    Fault(E),
    NoMemory,
}

impl From<AllocError> for NoMemory {
    fn from(_error: AllocError) -> NoMemory {
        NoMemory
    }
}

impl<T: Drop> From<AllocFailed<T>> for NoMemory {
    fn from(_error: AllocFailed<T>) -> NoMemory {
        NoMemory
    }
}

impl<E> From<NoMemory> for OrMemory<E> {
    ghost from_gives = { λ _ e. e ≡ answers.NoMemory };

    fn from(_error: NoMemory) -> OrMemory<E> {
        OrMemory::NoMemory
    }
}

impl<E> From<AllocError> for OrMemory<E> {
    ghost from_gives = { λ _ e. e ≡ answers.NoMemory };

    fn from(_error: AllocError) -> OrMemory<E> {
        OrMemory::NoMemory
    }
}

impl<E, T: Drop> From<AllocFailed<T>> for OrMemory<E> {
    ghost from_gives = { λ _ e. e ≡ answers.NoMemory };

    fn from(_error: AllocFailed<T>) -> OrMemory<E> {
        OrMemory::NoMemory
    }
}
