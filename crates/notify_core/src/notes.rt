//! The notifications of all tasks.
ghost use Rattle.std.specs.Prelude.{◌≡◌, ◌↔◌, ◌*◌, ◌<◌, ◌^◌, length, slice_set, IsTrue, IfOk};
ghost use Rattle.bench_types.specs.declared.note.NoteState.TheVariants.{NotWaiting};
ghost use Rattle.bench_model.specs.Notes.{is_received, is_waiting, notified, passes, slot_in, state_cleared, take_entered, take_ended, value_cleared, wait_entered, wait_ended, without_bits};
ghost use Rattle.bench_model.specs.Suspending.{awaits_note, without_waits};
ghost use Rattle.notify_core.specs.Parts.{fresh_notes, note_in, of_note};

use bench_model::notes::{is_received, is_waiting, notified, passes, unawaited, without_bits};
use bench_types::{NoteState, Notification, NotifyAction};
use std::alloc::{AllocError, Global};
use std::marker::Model;

/// The notifications of all tasks, each of which has as many, from index 0 on.
#[derive(Debug, Drop)]
pub struct Notes {
    tasks: u32,
    /// How many each task has (`configTASK_NOTIFICATION_ARRAY_ENTRIES`).
    entries: u32,
    /// Those of task 0 first.
    notes: Vec<Notification>,
}

impl Model for Notes {
    ghost use Rattle.notify_core.specs.Parts.{AreNotes, NotesPart};

    ghost Value = { NotesPart };

    ghost view = { λ of. record {
      tasks = of.tasks;
      entries = of.entries;
      notes = of.notes.items;
    } };

    ghost invariant = { λ of. AreNotes of.tasks of.entries of.notes.items };
}

impl Notes {
    /// The start: so many notifications for each of so many tasks. Each value is 0, nothing has
    /// come, and no call waits.
    pub fn new(alloc: Global, tasks: u32, entries: u32) -> Result<Self, AllocError>
        requires { tasks * entries < 2 ^ 32 }
        ensures { IfOk result (λ notes. notes ≡ fresh_notes tasks entries) }
    {
        let many = (tasks * entries) as usize;
        Ok(Notes {
            tasks,
            entries,
            notes: vec![in alloc; at_rest(0); many]?,
        })
    }

    /// A second value, equal to this one.
    pub fn copy(&self, alloc: Global) -> Result<Self, AllocError>
        ensures { IfOk result (λ copy. copy ≡ self.now) }
    {
        Ok(Notes {
            tasks: self.tasks,
            entries: self.entries,
            notes: Vec::from_slice(alloc, &self.notes)?,
        })
    }

    /// This becomes equal to the other, which has as many tasks and notifications. No memory is
    /// taken.
    pub fn copy_from(&mut self, other: &Self)
        requires tasks { self.old.tasks ≡ other.now.tasks }
        requires entries { self.old.entries ≡ other.now.entries }
        ensures { self.new ≡ other.now }
    {
        self.notes.copy_from_slice(&other.notes);
    }

    /// Whether values and states of all notifications of all tasks are equal.
    pub fn same(&self, other: &Self) -> bool
        ensures { IsTrue result ↔ (self.now ≡ other.now) }
    {
        // Nested, so that each test is proved where those before it hold.
        self.tasks == other.tasks && (self.entries == other.entries && self.notes == other.notes)
    }

    /// The notification value of the task at the index.
    pub fn value(&self, task: u32, index: u32) -> u32
        requires task { task < self.now.tasks }
        requires index { index < self.now.entries }
        ensures { result ≡ (note_in self.now task index).value }
    {
        self.note(task, index).value
    }

    /// The notification state of the task at the index.
    pub fn state(&self, task: u32, index: u32) -> NoteState
        requires task { task < self.now.tasks }
        requires index { index < self.now.entries }
        ensures { result ≡ (note_in self.now task index).state }
    {
        self.note(task, index).state
    }

    fn note(&self, task: u32, index: u32) -> Notification
        requires task { task < self.now.tasks }
        requires index { index < self.now.entries }
        ensures { result ≡ note_in self.now task index }
    {
        self.notes[self.slot(task, index)]
    }

    // Where the notification stands.
    fn slot(&self, task: u32, index: u32) -> usize
        requires task { task < self.now.tasks }
        requires index { index < self.now.entries }
        ensures slot { result ≡ slot_in self.now.entries task index }
        ensures below { result < length self.now.notes }
    {
        (task * self.entries + index) as usize
    }

    // The notification becomes this one.
    fn set(&mut self, task: u32, index: u32, note: Notification)
        requires task { task < self.old.tasks }
        requires index { index < self.old.entries }
        ensures { self.new ≡ record self.old {
          notes
              = slice_set self.old.notes (slot_in self.old.entries task index) note;
        } }
    {
        let slot = self.slot(task, index);
        self.notes[slot] = note;
    }

    /// Notifies the task at the index. Returns whether the notification was passed, and whether a
    /// call of the task waited for it.
    pub fn notify(&mut self, task: u32, index: u32, action: NotifyAction) -> (bool, bool)
        requires task { task < self.old.tasks }
        requires index { index < self.old.entries }
        ensures answer { let note
            = note_in self.old task index in result
            ≡ (passes action note.state, is_waiting note.state) }
        ensures notes { self.new ≡ record self.old {
          notes
              = slice_set self.old.notes (slot_in self.old.entries task index)
              (notified action (note_in self.old task index));
        } }
    {
        let note = self.note(task, index);
        self.set(task, index, notified(action, note));
        (passes(action, note.state), is_waiting(note.state))
    }

    /// Whether a call of the task waits for a notification, at some index.
    pub fn awaits(&self, task: u32) -> bool
        requires { task < self.now.tasks }
        ensures { result ≡ awaits_note self.now.entries task self.now.notes }
    {
        (0..self.entries).any(|index| is_waiting(self.state(task, index)))
    }

    /// No call of the task waits for a notification any more (`vTaskSuspend`).
    pub fn stop_waiting(&mut self, task: u32)
        requires { task < self.old.tasks }
        ensures { self.new ≡ record self.old {
          notes
              = without_waits self.old.entries task self.old.notes;
        } }
    {
        for index in 0..self.entries {
            self.set(task, index, unawaited(self.note(task, index)));
        }
    }

    /// Begins to wait for a notification: clears the bits of the value. Returns whether there is
    /// nothing to complete with; where there is, nothing changes.
    #[tactic(auto, unfolding(bench_model::specs::Notes::wait_entered))]
    pub fn begin_wait(&mut self, task: u32, index: u32, entry: u32) -> bool
        requires task { task < self.old.tasks }
        requires index { index < self.old.entries }
        ensures { (result, self.new) ≡ of_note task index (wait_entered entry) self.old }
    {
        let note = self.note(task, index);
        if is_received(note.state) {
            return false;
        }
        let waiting = Notification {
            value: without_bits(entry, note.value),
            state: NoteState::Waiting,
        };
        self.set(task, index, waiting);
        true
    }

    /// Completes a wait. Returns whether a notification has come, and the value; where one has
    /// come, it then clears the bits.
    #[tactic(auto, unfolding(bench_model::specs::Notes::wait_ended))]
    pub fn end_wait(&mut self, task: u32, index: u32, exit: u32) -> (bool, u32)
        requires task { task < self.old.tasks }
        requires index { index < self.old.entries }
        ensures { (result, self.new) ≡ of_note task index (wait_ended exit) self.old }
    {
        let note = self.note(task, index);
        let come = is_received(note.state);
        let left = if come {
            without_bits(exit, note.value)
        } else {
            note.value
        };
        self.set(task, index, at_rest(left));
        (come, note.value)
    }

    /// Begins to take the value. Returns whether there is nothing to complete with, as the value is
    /// 0; where there is, nothing changes.
    #[tactic(auto, unfolding(bench_model::specs::Notes::take_entered))]
    pub fn begin_take(&mut self, task: u32, index: u32) -> bool
        requires task { task < self.old.tasks }
        requires index { index < self.old.entries }
        ensures { (result, self.new) ≡ of_note task index take_entered self.old }
    {
        let note = self.note(task, index);
        let empty = note.value == 0;
        if empty {
            let waiting = Notification {
                value: note.value,
                state: NoteState::Waiting,
            };
            self.set(task, index, waiting);
        }
        empty
    }

    /// Completes a take. Returns the value; then it is 0 where it is cleared, or 1 less.
    #[tactic(auto, unfolding(bench_model::specs::Notes::take_ended))]
    pub fn end_take(&mut self, task: u32, index: u32, clear: bool) -> u32
        requires task { task < self.old.tasks }
        requires index { index < self.old.entries }
        ensures { (result, self.new) ≡ of_note task index (take_ended clear) self.old }
    {
        let note = self.note(task, index);
        let left = if clear {
            0
        } else {
            note.value.saturating_sub(1)
        };
        self.set(task, index, at_rest(left));
        note.value
    }

    /// Forgets that a notification has come. Returns whether one had.
    #[tactic(auto, unfolding(bench_model::specs::Notes::state_cleared))]
    pub fn clear_state(&mut self, task: u32, index: u32) -> bool
        requires task { task < self.old.tasks }
        requires index { index < self.old.entries }
        ensures { (result, self.new) ≡ of_note task index state_cleared self.old }
    {
        let note = self.note(task, index);
        let had = is_received(note.state);
        if had {
            self.set(task, index, at_rest(note.value));
        }
        had
    }

    /// Clears the bits of the value. Returns the value before.
    #[tactic(auto, unfolding(bench_model::specs::Notes::value_cleared))]
    pub fn clear_value(&mut self, task: u32, index: u32, bits: u32) -> u32
        requires task { task < self.old.tasks }
        requires index { index < self.old.entries }
        ensures { (result, self.new) ≡ of_note task index (value_cleared bits) self.old }
    {
        let note = self.note(task, index);
        let cleared = Notification {
            value: without_bits(bits, note.value),
            state: note.state,
        };
        self.set(task, index, cleared);
        note.value
    }
}

// No call waits, and nothing has come that was not taken.
fn at_rest(value: u32) -> Notification
    ensures { result ≡ record { value = value; state = NotWaiting } }
{
    Notification {
        value,
        state: NoteState::NotWaiting,
    }
}
