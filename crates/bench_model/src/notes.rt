//! The parts of the rules of one notification, computed.
ghost use Rattle.std.specs.Prelude.{◌≡◌};
ghost use Rattle.bench_model.specs.Notes.{is_received, is_waiting, without_bits, passes, acted, notified, unawaited};

use bench_types::{NoteState, Notification, NotifyAction};

/// Whether a notification has come that was not taken (`taskNOTIFICATION_RECEIVED`).
pub fn is_received(state: NoteState) -> bool
    ensures { result ≡ is_received state }
{
    match state {
        NoteState::Received => true,
        NoteState::NotWaiting | NoteState::Waiting => false,
    }
}

/// Whether a call waits for a notification (`taskWAITING_NOTIFICATION`).
pub fn is_waiting(state: NoteState) -> bool
    ensures { result ≡ is_waiting state }
{
    match state {
        NoteState::Waiting => true,
        NoteState::NotWaiting | NoteState::Received => false,
    }
}

/// The notification value without the bits.
pub fn without_bits(bits: u32, value: u32) -> u32
    ensures { result ≡ without_bits bits value }
{
    value & !bits
}

/// Whether the notification passes; one that must not overwrite (`eSetValueWithoutOverwrite`) may
/// not.
pub fn passes(action: NotifyAction, state: NoteState) -> bool
    ensures { result ≡ passes action state }
{
    match action {
        NotifyAction::SetNew(_) => !is_received(state),
        NotifyAction::Nothing
        | NotifyAction::SetBits(_)
        | NotifyAction::Increment
        | NotifyAction::Set(_) => true,
    }
}

/// The notification value after an action that passes (`eNotifyAction`).
pub fn acted(action: NotifyAction, value: u32) -> u32
    ensures { result ≡ acted action value }
{
    match action {
        NotifyAction::Nothing => value,
        NotifyAction::SetBits(bits) => value | bits,
        NotifyAction::Increment => value.wrapping_add(1),
        NotifyAction::Set(new) | NotifyAction::SetNew(new) => new,
    }
}

/// What a notification makes of a task's (`xTaskGenericNotify`).
#[tactic(auto, unfolding(crate::specs::Notes::notified))]
pub fn notified(action: NotifyAction, note: Notification) -> Notification
    ensures { result ≡ notified action note }
{
    let value = if passes(action, note.state) {
        acted(action, note.value)
    } else {
        note.value
    };
    Notification {
        value,
        state: NoteState::Received,
    }
}

/// A notification for which nobody waits any more (`vTaskSuspend`).
#[tactic(auto, unfolding(crate::specs::Notes::unawaited))]
pub fn unawaited(note: Notification) -> Notification
    ensures { result ≡ unawaited note }
{
    let state = if is_waiting(note.state) {
        NoteState::NotWaiting
    } else {
        note.state
    };
    Notification { state, ..note }
}
