//! The rule of a lock pair, and what its steps tell.
use crate::kept::Kept;
use crate::view::{About, View};
use atomic_table::{Join, Play, Split, TableRule};

pub(crate) struct LockRule;

impl<V: Kept> TableRule<Option<V>, View, About<V>> for LockRule {
    ghost use Rattle.port_locks.specs.Locks.{Locked};
    ghost use Rattle.port_locks.specs.Steps.{seated};

    ghost holds = { λ key. Locked V.terms V.list key };

    ghost first = { λ key. seated (V.terms key.first.value) 0 1 };
}

pub(crate) struct TakeInterrupt;

impl<V: Kept> Play<Option<V>, View> for TakeInterrupt {
    ghost use Rattle.port_locks.specs.Steps.{took_interrupt};

    ghost then = { took_interrupt V.terms V.list };
}

pub(crate) struct Publish;

impl<V: Kept> Play<Option<V>, View> for Publish {
    ghost use Rattle.port_locks.specs.Steps.{published};

    ghost then = { published V.terms V.list };
}

pub(crate) struct FreeInterrupt;

impl<S> Play<S, View> for FreeInterrupt {
    ghost use Rattle.port_locks.specs.Steps.{freed_interrupt};

    ghost then = { freed_interrupt };
}

pub(crate) struct TakeTask;

impl<S> Play<S, View> for TakeTask {
    ghost use Rattle.port_locks.specs.Steps.{took_task};

    ghost then = { took_task };
}

pub(crate) struct FreeTask;

impl<S> Play<S, View> for FreeTask {
    ghost use Rattle.port_locks.specs.Steps.{freed_task};

    ghost then = { freed_task };
}

/// The first seat gives the next number out.
pub(crate) struct Number;

impl Split<View> for Number {
    ghost use Rattle.port_locks.specs.Steps.{one_more, newcomer};

    ghost left = { one_more };

    ghost right = { newcomer };
}

/// A seat hands over what it saw and made.
pub(crate) struct Gather;

impl Join<View> for Gather {
    ghost use Rattle.port_locks.specs.Steps.{gathered, nobody};

    ghost both = { gathered };

    ghost spent = { nobody };
}
