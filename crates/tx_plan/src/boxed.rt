//! What a command asks, where that is large.
ghost use Rattle.std.specs.Prelude.{◌≡◌, IfOk, IfErr};

use std::alloc::Global;
use std::marker::Model;
use tx_types::Fault;

/// What a command asks, in memory of its own, so that a request of any command is small. Contracts
/// see what is asked.
#[derive(Debug, Drop)]
pub struct Boxed<T> {
    body: Box<T>,
}

impl<T> Model for Boxed<T> {
    ghost Value = { T };

    ghost view = { λ b. b.body.value };
}

impl<T: Drop> Boxed<T> {
    /// This in memory of its own.
    pub fn new(alloc: Global, body: T) -> Result<Boxed<T>, Fault>
        ensures ok { IfOk result (λ boxed. boxed ≡ body) }
        ensures err { IfErr result (λ e. e ≡ Fault.OutOfMemory) }
    {
        let body = Box::new(alloc, body)?;
        Ok(Boxed { body })
    }

    /// What is asked.
    pub fn asked(&self) -> &T
        ensures { result.now ≡ self.now }
    {
        &self.body
    }

    /// Where its memory is from.
    pub fn allocator(&self) -> Global {
        *Box::allocator(&self.body)
    }
}
