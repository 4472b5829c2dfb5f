// How the trial's own side of a call fails.
use net::refusal::Refusal;
use std::alloc::{AllocError, AllocFailed};

#[derive(Drop)]
pub enum Failure<E> {
    // what the call is to be refused with
    Told(E),
    // no memory to tell
    Memory(AllocError),
}

impl<E> From<AllocError> for Failure<E> {
    fn from(error: AllocError) -> Failure<E> {
        Failure::Memory(error)
    }
}

impl<E, T: Drop> From<AllocFailed<T>> for Failure<E> {
    fn from(failed: AllocFailed<T>) -> Failure<E> {
        Failure::Memory(AllocError::from(failed))
    }
}

impl From<Refusal> for Failure<Refusal> {
    fn from(refusal: Refusal) -> Failure<Refusal> {
        Failure::Told(refusal)
    }
}

impl<E> Failure<E> {
    pub fn map<D, F: FnOnce(E) -> D>(self, f: F) -> Failure<D>
        requires { F.IsAlwaysCallable f }
    {
        match self {
            Failure::Told(why) => Failure::Told(f(why)),
            Failure::Memory(error) => Failure::Memory(error),
        }
    }
}

// The answer that is to be expected, where there was memory to tell it.
pub fn expected<T, E>(told: Result<T, Failure<E>>) -> Result<Result<T, E>, AllocError> {
    match told {
        Ok(value) => Ok(Ok(value)),
        Err(Failure::Told(why)) => Ok(Err(why)),
        Err(Failure::Memory(error)) => Err(error),
    }
}
