//! Who waits for the answer to a command.

/// Who waits for the answer to a command that was handed in, as the peer of a session. Between its
/// rests a hub asks whether the waiter has left, and then waits no more.
pub trait Waiter {
    ghost use Rattle.std.specs.Prelude.{◌≡◌, Bool};

    /// Whether the waiter has left, as it was asked last. Code that is generic in the waiter can
    /// know that it has only from a call.
    ghost has_left: { Self → Bool };

    /// Whether the waiter has left.
    fn has_left(&mut self) -> bool
        ensures { result ≡ has_left self.new };

    /// Whether the waiter had left when it was asked last. It is not asked for this.
    fn had_left(&self) -> bool
        ensures { result ≡ has_left self.now };

    /// Notes that there is an answer, so that the next wait is a new one.
    fn note_answer(&mut self);
}

/// A waiter that never leaves.
#[derive(Clone, Copy)]
pub struct Patient;

impl Waiter for Patient {
    ghost use Rattle.std.specs.Prelude.{false};

    ghost has_left = { λ _. false };

    fn has_left(&mut self) -> bool {
        false
    }

    fn had_left(&self) -> bool {
        false
    }

    fn note_answer(&mut self) {}
}
