//! Why a step was refused.

use crate::values::Commit;

/// Why a step with a value of phase `P` was refused. The first that holds is answered, in this
/// order: `Stranger`, `Stopped`, and then `Fault` or `Damaged`. Only `write_chunk` is answered by
/// `Damaged`. `NoMemory` is reserved for it, and the contract of each step rules that out.
pub enum StepError<P> {
    /// The device failed: the value is spent, and the state has stopped.
    Fault,
    /// The state had stopped: the value is spent.
    Stopped,
    /// It is not this value's turn, or the value is another state's. The value is returned.
    Stranger(Commit<P>),
    /// Memory was refused. The value is returned.
    NoMemory(Commit<P>),
    /// A sector of the old half's area has another sum than when the checkpoint was begun, which is
    /// never so on an honest device: the value is spent, and the state has stopped. The old half
    /// still counts.
    Damaged,
}

/// Why publishing a value of phase `P` was refused. `Stranger` is judged first.
pub enum PublishError<P> {
    /// Memory was refused. The value is returned, and the same group is owed.
    NoMemory(Commit<P>),
    /// It is not this value's turn, or the value is another state's. The value is returned.
    Stranger(Commit<P>),
}
