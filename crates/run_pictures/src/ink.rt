//! What a bar stands for: the style of the picture draws each in its own colour.
ghost use Rattle.std.specs.Prelude.{◌≡◌, ◌++◌, OnOk, string_bytes};
ghost use Rattle.run_pictures.specs.Ink.{ink_text, task_ink, tick_ink};

use std::alloc::AllocError;

/// What a bar stands for.
#[derive(Clone, Copy, Debug, PartialEq, Eq)]
pub(crate) enum Ink {
    EvenTick,
    OddTick,
    /// An idle task.
    Idle,
    /// The user task of that index, which runs.
    Runs(u32),
    /// The user task of that index, which is ready.
    Ready(u32),
    Waits,
    /// A user task that is suspended.
    Suspended,
    Due,
    Held,
    Inherited,
    /// Preemption is off.
    Off,
    /// A mutex that the user task of that index holds.
    Taken(u32),
    /// A queue that has so many messages.
    Messages(u32),
    /// Nothing is drawn; it is there to hover over.
    Clear,
}

/// The ink of a tick count.
pub(crate) fn tick_ink(tick: u32) -> Ink
    ensures { result ≡ tick_ink tick }
{
    if tick % 2 == 0 {
        Ink::EvenTick
    } else {
        Ink::OddTick
    }
}

/// The ink of a task that runs, where there are so many cores.
pub(crate) fn task_ink(cores: u32, task: u32) -> Ink
    ensures { result ≡ task_ink cores task }
{
    if task < cores {
        Ink::Idle
    } else {
        Ink::Runs(task - cores)
    }
}

/// Writes the name by which the style knows the ink.
pub(crate) fn push_ink(text: &mut String, ink: Ink) -> Result<(), AllocError>
    ensures { OnOk result (string_bytes text.new ≡ string_bytes text.old ++ ink_text ink) }
{
    match ink {
        Ink::EvenTick => text.push_str("t"),
        Ink::OddTick => text.push_str("t v"),
        Ink::Idle | Ink::Suspended => text.push_str("i"),
        Ink::Runs(user) => write!(text, "c{}", user % 8),
        Ink::Ready(user) => write!(text, "r c{}", user % 8),
        Ink::Waits => text.push_str("w"),
        Ink::Due => text.push_str("d"),
        Ink::Held => text.push_str("h"),
        Ink::Inherited => text.push_str("u"),
        Ink::Off => text.push_str("p"),
        Ink::Taken(user) => write!(text, "m c{}", user % 8),
        Ink::Messages(_) => text.push_str("q"),
        Ink::Clear => text.push_str("z"),
    }
}
