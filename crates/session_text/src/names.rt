//! The tasks that names stand for.
ghost use Rattle.std.specs.Prelude.{◌≡◌, IfOk, Ok, map};
ghost use Rattle.bench_types.specs.Header.{header_check};
ghost use Rattle.session_text.specs.Names.{names_of, no_names, number_of, user_names};
ghost use Rattle.session_text.specs.Node.{data_of, location_of};
ghost use Rattle.session_text.specs.ReadingRules.{Gives};
ghost use Rattle.session_text.specs.Step.{task_named_at};

use crate::fault::ReadFault;
use crate::node::Node;
use bench_types::Header;
use indexmap::IndexSet;
use std::alloc::{AllocError, Global};
use std::marker::Model;

/// The numbers that the names of user tasks stand for.
#[derive(Drop)]
pub struct Names<'a> {
    cores: u32,
    names: IndexSet<&'a str>,
}

impl<'a> Model for Names<'a> {
    ghost use Rattle.std.specs.Prelude.{map, length, ◌≤◌};
    ghost use Rattle.bench_types.specs.Limits.{max_cores, max_tasks};
    ghost use Rattle.session_text.specs.Names.{TaskNames};

    ghost Value = { TaskNames };

    ghost view = { λ it.
        record { cores = it.cores; names = map (λ name. name.now) it.names.keys } };

    ghost invariant = { (λ it. (it.cores ≤ max_cores) × (length it.names.keys ≤ max_tasks)) };
}

impl<'a> Names<'a> {
    pub fn none(alloc: Global) -> Self
        ensures { result ≡ no_names }
    {
        Names {
            cores: 0,
            names: IndexSet::new(alloc),
        }
    }

    pub fn of(alloc: Global, header: &'a Header) -> Result<Self, AllocError>
        requires { header_check header.now ≡ Ok tt }
        ensures { IfOk result (λ names. names ≡ names_of header.now) }
    {
        let mut names = IndexSet::new(alloc);
        for task in header.tasks.as_slice() {
            names.insert(task.name.as_str())?;
        }
        Ok(Names {
            cores: header.config.cores,
            names,
        })
    }

    #[inline(never)]
    #[tactic(auto, using(crate::proofs::Lists::position_map))]
    pub fn number_of(&self, name: &str) -> u32
        ensures { result ≡ number_of self.now name.now }
    {
        match self.names.get_index_of(name) {
            Some(location) => self.cores + location as u32,
            None => 0,
        }
    }

    /// The number of the task that the member names.
    #[inline(always)]
    #[tactic(auto, unfolding(crate::specs::Step::task_named_at))]
    pub fn task_named_at(&self, node: &Node<'_, '_, '_>, name: &str) -> Result<u32, ReadFault>
        ensures { Gives (λ task. task) result
            (task_named_at self.now (location_of node.now) name.now (data_of node.now)) }
    {
        Ok(self.number_of(node.text(name)?))
    }
}

/// The names of the user tasks.
pub fn user_names(alloc: Global, header: &Header) -> Result<Vec<&str>, AllocError>
    ensures { IfOk result
        (λ names. map (λ name. name.now) names.items ≡ user_names header.now) }
{
    let mut names = Vec::new(alloc);
    for task in header.tasks.as_slice() {
        names.push(task.name.as_str())?;
    }
    Ok(names)
}
