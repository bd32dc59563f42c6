//! A row of current tasks, and its text.
ghost use Rattle.std.specs.Prelude.{◌≡◌, ◌<◌, suc, length, IfOk, OnOk, string_bytes};
ghost use Rattle.bench_commands.specs.Lines.{AreLabels, IsShownAt};

use crate::labels::Labels;
use crate::lines::push_row;
use bench_types::Row;
use session_store::Store;
use std::alloc::{AllocError, Global};

/// The current tasks at a place, and what lines say of them, which is made again only where the
/// tasks change.
#[derive(Drop)]
pub(crate) struct ShownRow {
    tasks: Row,
    pub(crate) text: String,
}

impl ShownRow {
    /// That of the start.
    pub(crate) fn at_start(
        alloc: Global,
        store: &Store,
        labels: &Labels,
    ) -> Result<ShownRow, AllocError>
        requires { AreLabels store.now.session.header labels.now }
        ensures { IfOk result (λ row. IsShownAt store.now.session 0 row.tasks.items
            (string_bytes row.text)) }
    {
        let mut text = String::new(alloc);
        let Some(tasks) = store.row(alloc, 0)? else {
            return Ok(ShownRow {
                tasks: Row::new(alloc),
                text,
            });
        };
        push_row(&mut text, store.header(), labels, &tasks)?;
        Ok(ShownRow { tasks, text })
    }

    /// Goes on to the place after the step at this one.
    pub(crate) fn pass(
        &mut self,
        store: &Store,
        labels: &Labels,
        place: u32,
    ) -> Result<(), AllocError>
        requires labels { AreLabels store.now.session.header labels.now }
        requires place { place < length store.now.session.steps }
        requires row { IsShownAt store.now.session place self.old.tasks.items
            (string_bytes self.old.text) }
        ensures { OnOk result (IsShownAt store.now.session (suc place) self.new.tasks.items
            (string_bytes self.new.text)) }
    {
        if !store.update_row(place, &mut self.tasks) {
            return Ok(());
        }
        self.text.clear();
        push_row(&mut self.text, store.header(), labels, &self.tasks)
    }
}
