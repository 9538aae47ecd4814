ghost use Rattle.std.specs.Prelude.{◌≡◌, IfOk, MatchResult};

use std::alloc::{AllocError, Global};
use std::marker::Model;
use std::sync::Arc;

/// A value with several owners, which contracts see as the value.
#[derive(Drop)]
pub struct Shared<T> {
    inner: Arc<T>,
}

impl<T> Model for Shared<T> {
    ghost use Rattle.std.specs.Arc.{arc_value};

    ghost Value = { T };

    ghost coded = { T.code };

    ghost view = { λ s. arc_value s.inner };
}

impl<T> Shared<T> {
    /// The value inside.
    pub fn get(&self) -> &T
        ensures { result.now ≡ self.now }
    {
        &self.inner
    }

    /// The value, if it has no other owner.
    pub fn unshare(self) -> Result<T, Shared<T>>
        ensures { MatchResult result (λ value. value ≡ self) (λ s. s ≡ self) }
    {
        let Shared { inner } = self;
        match Arc::try_unwrap(inner) {
            Ok(value) => Ok(value),
            Err(inner) => Err(Shared { inner }),
        }
    }

    /// One more owner of the same value.
    pub fn share(&self) -> Result<Shared<T>, AllocError>
        ensures { IfOk result (λ s. s ≡ self.now) }
    {
        Ok(Shared {
            inner: Arc::try_clone(&self.inner)?,
        })
    }
}

impl<T: Drop> Shared<T> {
    /// A value with one owner so far.
    pub fn new(alloc: Global, value: T) -> Result<Shared<T>, AllocError>
        ensures { IfOk result (λ s. s ≡ value) }
    {
        Ok(Shared {
            inner: Arc::new(alloc, value)?,
        })
    }
}
