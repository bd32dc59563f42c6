//! Priority inheritance: how a holder takes over a priority in use, and gives it up.
ghost use Rattle.std.specs.Prelude.{◌≡◌, ℕ, ◌<◌, length};
ghost use Rattle.std.specs.Option.{ForSome};
ghost use Rattle.bench_model.specs.Lists.{list_queues};
ghost use Rattle.bench_model.specs.Mutexes.{is_marked, disinherit_priority, inherited, after_disinherit};
ghost use Rattle.bench_model.specs.ControlFields.{in_use_set};
ghost use Rattle.list_orders.specs.Search.{has};
ghost use Rattle.bench_model.specs.Cores.{cores_rule};

use bench_types::Waiter;
use ready_core::Cores;

/// Whether the wait of a task for this holder gets a mark: the holder is another task, whose base
/// priority is below the priority in use of the task that waits (V11 tasks.c,
/// xTaskPriorityInherit).
pub(crate) fn is_marked(cores: &Cores, task: u32, holder: u32) -> bool
    requires task { task < length cores.now.control.tasks }
    requires holder { holder < length cores.now.control.tasks }
    ensures { result ≡ is_marked cores.now.control task holder }
{
    holder != task && cores.base(holder) < cores.in_use(task)
}

// The priority in use of the task becomes this one.
fn set_in_use(cores: &mut Cores, task: u32, priority: u32)
    requires task { task < length cores.old.control.tasks }
    requires priority { priority < cores.old.priorities }
    ensures set { cores.new ≡ cores_rule (in_use_set list_queues task priority) cores.old }
    ensures ready { has task cores.new.ready ≡ has task cores.old.ready }
    ensures tasks { length cores.new.control.tasks ≡ length cores.old.control.tasks }
{
    cores.set_in_use(task, priority);
}

/// The holder takes over a greater priority in use; where it is ready and runs on no core, a core
/// is sought for it (V11 tasks.c, xTaskPriorityInherit).
#[tactic(auto, unfolding(bench_model::specs::Mutexes::inherited, bench_model::specs::ControlFields::in_use_and_value_set, bench_model::specs::Lists::set_list_value))]
pub(crate) fn inherit(cores: &mut Cores, acting: u32, holder: u32, priority: u32)
    requires holder { holder < length cores.old.control.tasks }
    requires priority { priority < cores.old.priorities }
    ensures { cores.new ≡ cores_rule (inherited list_queues acting holder priority) cores.old }
{
    if cores.in_use(holder) < priority {
        set_in_use(cores, holder, priority);
        if cores.ready(holder) {
            cores.yield_for(acting, holder, cores.mask(holder));
        }
    }
}

/// The task's priority in use becomes this one, unless it is this one already; the core of a
/// running task is asked.
#[tactic(auto, unfolding(bench_model::specs::Mutexes::after_disinherit, bench_model::specs::ControlFields::in_use_and_value_set, bench_model::specs::Lists::set_list_value))]
pub(crate) fn lower(cores: &mut Cores, acting: u32, task: u32, priority: u32)
    requires task { task < length cores.old.control.tasks }
    requires priority { priority < cores.old.priorities }
    ensures { cores.new ≡ cores_rule (after_disinherit list_queues acting task priority) cores.old }
{
    if cores.in_use(task) != priority {
        set_in_use(cores, task, priority);
        cores.ask_its_core(acting, task);
    }
}

/// The greater of the base priority and the waiting priority of a waiter, if there is one.
pub(crate) fn disinherit_priority(first: Option<Waiter>, base: u32) -> u32
    ensures owed { result ≡ disinherit_priority first base }
    ensures below { (bound : ℕ) → base < bound
        → ForSome first (λ waiter. waiter.wait.priority < bound) → result < bound }
{
    match first {
        Some(waiter) if base < waiter.wait.priority => waiter.wait.priority,
        _ => base,
    }
}
