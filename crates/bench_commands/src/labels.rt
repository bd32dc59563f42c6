//! The names of tasks as rows show them.
ghost use Rattle.std.specs.Prelude.{◌≡◌, ◌++◌, ◌<◌, ◌^◌, IfOk, OnOk, string_bytes};
ghost use Rattle.bench_types.specs.Header.{name_of};
ghost use Rattle.bench_commands.specs.Lines.{AreLabels};
ghost use Rattle.program_io.specs.Refusal.{spaced};

use crate::lines::push_task;
use bench_types::{Header, MAX_CORES, MAX_TASKS};
use std::alloc::{AllocError, Global};
use std::marker::Model;

/// What rows say of each task, its name after a space, made once for many rows.
#[derive(Drop)]
pub(crate) struct Labels {
    texts: Vec<String>,
}

impl Model for Labels {
    ghost use Rattle.std.specs.Prelude.{List, ℕ, map, string_bytes};

    ghost Value = { List (List ℕ) };

    ghost view = { λ labels. map string_bytes labels.texts.items };
}

impl Labels {
    /// Those of the header's tasks.
    pub(crate) fn of_tasks(alloc: Global, header: &Header) -> Result<Labels, AllocError>
        ensures { IfOk result (AreLabels header.now) }
    {
        let count = header.tasks.as_slice().len().min(MAX_TASKS as usize) as u32;
        let mut texts = Vec::new(alloc);
        for task in 0..header.config.cores.min(MAX_CORES) + count {
            texts.push(label_of(alloc, header, task)?)?;
        }
        Ok(Labels { texts })
    }

    /// Writes what rows say of the task.
    pub(crate) fn push(
        &self,
        text: &mut String,
        header: &Header,
        task: u32,
    ) -> Result<(), AllocError>
        requires { AreLabels header.now self.now }
        ensures { OnOk result
            (string_bytes text.new ≡ string_bytes text.old ++ spaced (name_of header.now task)) }
    {
        match self.texts.get(task as usize) {
            Some(label) => text.push_str(label.as_str()),
            None => push_task(text, header, task),
        }
    }
}

fn label_of(alloc: Global, header: &Header, task: u32) -> Result<String, AllocError>
    ensures { IfOk result
        (λ label. string_bytes label ≡ spaced (name_of header.now task)) }
{
    let mut label = String::new(alloc);
    push_task(&mut label, header, task)?;
    Ok(label)
}
