//! What a run of a session is measured by.
ghost use Rattle.std.specs.Prelude.{◌≡◌, ◌+◌, ◌<◌, ◌^◌, ◌++◌, All, IfOk, OnOk, Ok, length, map, flat_map};
ghost use Rattle.list_orders.specs.Search.{numbers};
ghost use Rattle.bench_types.specs.Header.{header_check};
ghost use Rattle.bench_types.specs.Step.{settings_of};
ghost use Rattle.run_numbers.specs.Readings.{IsSubjectOf};
ghost use Rattle.report_figures.specs.Subjects.{blocked_at, blocked_on, blocked_ways, calls_by, calls_for, core_subjects, jobs_of, mutex_subjects, off_core, on_core, queue_subjects, queues_of, refusals_of, run_subjects, steps_of, state_of, subjects_of, suspended_in, takes_of, task_subjects, transfers_at, transfers_of, user_subjects, waits_of};

use bench_types::{Config, Direction, Header, Refusal};
use run_numbers::{Cause, Condition, Event, JobNumber, Subject, Whole};
use std::alloc::{AllocError, Global};

/// All that a run of a session with this header is measured by: task by task, then core by core,
/// then mutex by mutex, then queue by queue, and of the run as a whole. Idle tasks are left out.
#[tactic(auto, using(bench_types::proofs::Passes::checked_header))]
pub fn subjects_of(alloc: Global, header: &Header) -> Result<Vec<Subject>, AllocError>
    requires { header_check header.now ≡ Ok tt }
    ensures value { IfOk result (λ subjects. subjects.items ≡ subjects_of header.now) }
    // So each can be measured in such a run.
    ensures each { IfOk result
        (λ subjects. All (IsSubjectOf (settings_of header.now)) subjects.items) }
{
    let config = header.config;
    let queues = queues_of(header);
    let mut subjects = Vec::new(alloc);
    let suspends = header.queues.is_some();
    push_tasks(
        &mut subjects,
        config,
        queues,
        suspends,
        header.tasks.as_slice().len(),
    )?;
    push_cores(&mut subjects, config.cores)?;
    push_mutexes(&mut subjects, config.mutexes)?;
    push_queues(&mut subjects, queues)?;
    push_all(&mut subjects, &run_subjects())?;
    Ok(subjects)
}

// How many queues the session has.
fn queues_of(header: &Header) -> u32
    requires { header_check header.now ≡ Ok tt }
    ensures { result ≡ queues_of header.now }
{
    header.queue_count().unwrap_or(0)
}

fn push_tasks(
    subjects: &mut Vec<Subject>,
    config: Config,
    queues: u32,
    suspends: bool,
    count: usize,
) -> Result<(), AllocError>
    requires { config.cores + count < 2 ^ 32 }
    ensures { OnOk result
        (subjects.new.items ≡ subjects.old.items ++ user_subjects config queues suspends count) }
{
    for user in 0..count {
        push_task(
            subjects,
            config,
            queues,
            suspends,
            config.cores + user as u32,
        )?;
    }
    Ok(())
}

#[tactic(auto, unfolding(crate::specs::Subjects::task_subjects))]
fn push_task(
    subjects: &mut Vec<Subject>,
    config: Config,
    queues: u32,
    suspends: bool,
    task: u32,
) -> Result<(), AllocError>
    ensures { OnOk result
        (subjects.new.items ≡ subjects.old.items ++ task_subjects config queues suspends task) }
{
    push_running(subjects, config.cores, task)?;
    push_all(subjects, &off_core(task))?;
    push_waits(subjects, config.mutexes, queues, suspends, task)?;
    push_all(subjects, &steps_of(task))?;
    push_refusals(subjects, task)?;
    push_all(subjects, &state_of(task))?;
    push_calls(subjects, config.mutexes, queues, task)?;
    push_all(subjects, &jobs_of(task))
}

fn push_all(subjects: &mut Vec<Subject>, all: &[Subject]) -> Result<(), AllocError>
    ensures { OnOk result (subjects.new.items ≡ subjects.old.items ++ all.now) }
{
    for subject in all {
        subjects.push(*subject)?;
    }
    Ok(())
}

fn push_running(subjects: &mut Vec<Subject>, cores: u32, task: u32) -> Result<(), AllocError>
    ensures { OnOk result (subjects.new.items ≡ subjects.old.items ++ on_core cores task) }
{
    subjects.push(Subject::Time(Condition::Running { task }))?;
    for core in 0..cores {
        subjects.push(Subject::Time(Condition::RunningOn { task, core }))?;
    }
    Ok(())
}

fn off_core(task: u32) -> [Subject; 6]
    ensures { result ≡ off_core task }
{
    [
        Subject::Time(Condition::WantsCore { task }),
        Subject::Time(Condition::Inverted { task }),
        Subject::Time(blocked(task, Cause::Delay)),
        Subject::Time(blocked(task, Cause::Notification)),
        Subject::Time(blocked(task, Cause::AnyMutex)),
        Subject::Time(Condition::HeldUp { task }),
    ]
}

fn blocked(task: u32, cause: Cause) -> Condition
    ensures { result ≡ Condition.Blocked task cause }
{
    Condition::Blocked { task, cause }
}

#[tactic(auto, unfolding(crate::specs::Subjects::waits_of))]
fn push_waits(
    subjects: &mut Vec<Subject>,
    mutexes: u32,
    queues: u32,
    suspends: bool,
    task: u32,
) -> Result<(), AllocError>
    ensures { OnOk result
        (subjects.new.items ≡ subjects.old.items ++ waits_of mutexes queues suspends task) }
{
    push_blocked(subjects, mutexes, task)?;
    push_blocked_at(subjects, queues, task)?;
    push_suspended(subjects, suspends, task)
}

fn push_blocked(subjects: &mut Vec<Subject>, mutexes: u32, task: u32) -> Result<(), AllocError>
    ensures { OnOk result (subjects.new.items ≡ subjects.old.items ++ blocked_on mutexes task) }
{
    for mutex in 0..mutexes {
        subjects.push(Subject::Time(blocked(task, Cause::Mutex(mutex))))?;
    }
    Ok(())
}

fn push_blocked_at(subjects: &mut Vec<Subject>, queues: u32, task: u32) -> Result<(), AllocError>
    ensures { OnOk result (subjects.new.items ≡ subjects.old.items ++ blocked_at queues task) }
{
    if queues == 0 {
        return Ok(());
    }
    subjects.push(Subject::Time(blocked(task, Cause::AnyQueue)))?;
    push_all_ways(subjects, queues, task)
}

fn push_all_ways(subjects: &mut Vec<Subject>, queues: u32, task: u32) -> Result<(), AllocError>
    ensures { OnOk result
        (subjects.new.items
        ≡ subjects.old.items ++ flat_map (blocked_ways task) (numbers queues)) }
{
    for queue in 0..queues {
        push_all(subjects, &blocked_ways(task, queue))?;
    }
    Ok(())
}

fn blocked_way(task: u32, queue: u32, direction: Direction) -> Condition
    ensures { result ≡ Condition.Blocked task (Cause.Queue queue direction) }
{
    blocked(task, Cause::Queue { queue, direction })
}

fn blocked_ways(task: u32, queue: u32) -> [Subject; 2]
    ensures { result ≡ blocked_ways task queue }
{
    [
        Subject::Time(blocked_way(task, queue, Direction::Send)),
        Subject::Time(blocked_way(task, queue, Direction::Receive)),
    ]
}

fn push_suspended(subjects: &mut Vec<Subject>, suspends: bool, task: u32) -> Result<(), AllocError>
    ensures { OnOk result (subjects.new.items ≡ subjects.old.items ++ suspended_in suspends task) }
{
    if suspends {
        subjects.push(Subject::Time(Condition::Suspended { task }))?;
    }
    Ok(())
}

fn steps_of(task: u32) -> [Subject; 10]
    ensures { result ≡ steps_of task }
{
    [
        Subject::Steps(Event::SwitchedIn { task }),
        Subject::Steps(Event::PutOff { task }),
        Subject::Migrations { task },
        Subject::Steps(Event::Inherits { task }),
        Subject::TopPriority { task },
        Subject::Steps(Event::TimesOut { task }),
        Subject::RanOut { task },
        Subject::Steps(Event::Late { task }),
        Subject::Steps(Event::Loses { task }),
        Subject::Unfinished { task },
    ]
}

fn push_refusals(subjects: &mut Vec<Subject>, task: u32) -> Result<(), AllocError>
    ensures { OnOk result (subjects.new.items ≡ subjects.old.items ++ refusals_of task) }
{
    let refusals = [
        Refusal::Held,
        Refusal::Displaced,
        Refusal::SwitchDue,
        Refusal::InCall,
        Refusal::NotInCall,
        Refusal::HoldBlock,
        Refusal::NoHold,
        Refusal::HoldDeep,
        Refusal::NotHolder,
    ];
    for why in &refusals {
        subjects.push(Subject::Steps(Event::Refused { task, why: *why }))?;
    }
    Ok(())
}

fn state_of(task: u32) -> [Subject; 2]
    ensures { result ≡ state_of task }
{
    [
        Subject::Time(Condition::Raised { task }),
        Subject::Time(Condition::PreemptionOff { task }),
    ]
}

fn job(task: u32, number: JobNumber) -> Subject
    ensures { result ≡ Subject.Job task number }
{
    Subject::Job { task, number }
}

// What the jobs of the task have numbers of, and its calls that are not made.
fn jobs_of(task: u32) -> [Subject; 7]
    ensures { result ≡ jobs_of task }
{
    [
        job(task, JobNumber::Count),
        job(task, JobNumber::Response),
        job(task, JobNumber::ShortestResponse),
        job(task, JobNumber::Latency),
        job(task, JobNumber::Period),
        job(task, JobNumber::ShortestPeriod),
        Subject::NotMade { task },
    ]
}

fn calls_for(task: u32, cause: Cause) -> [Subject; 2]
    ensures { result ≡ calls_for task cause }
{
    [
        Subject::Steps(Event::Called { task, cause }),
        Subject::Time(Condition::InCall { task, cause }),
    ]
}

#[tactic(auto, unfolding(crate::specs::Subjects::calls_by))]
fn push_calls(
    subjects: &mut Vec<Subject>,
    mutexes: u32,
    queues: u32,
    task: u32,
) -> Result<(), AllocError>
    ensures { OnOk result
        (subjects.new.items ≡ subjects.old.items ++ calls_by mutexes queues task) }
{
    push_all(subjects, &calls_for(task, Cause::Delay))?;
    push_all(subjects, &calls_for(task, Cause::Notification))?;
    push_takes(subjects, mutexes, task)?;
    push_transfers(subjects, queues, task)
}

fn push_takes(subjects: &mut Vec<Subject>, mutexes: u32, task: u32) -> Result<(), AllocError>
    ensures { OnOk result (subjects.new.items ≡ subjects.old.items ++ takes_of mutexes task) }
{
    for mutex in 0..mutexes {
        push_all(subjects, &calls_for(task, Cause::Mutex(mutex)))?;
    }
    Ok(())
}

fn way_of(queue: u32, direction: Direction) -> Cause
    ensures { result ≡ Cause.Queue queue direction }
{
    Cause::Queue { queue, direction }
}

fn transfers_at(task: u32, queue: u32) -> [Subject; 4]
    ensures { result ≡ transfers_at task queue }
{
    let (send, receive) = (
        way_of(queue, Direction::Send),
        way_of(queue, Direction::Receive),
    );
    [
        Subject::Steps(Event::Called { task, cause: send }),
        Subject::Time(Condition::InCall { task, cause: send }),
        Subject::Steps(Event::Called {
            task,
            cause: receive,
        }),
        Subject::Time(Condition::InCall {
            task,
            cause: receive,
        }),
    ]
}

fn push_transfers(subjects: &mut Vec<Subject>, queues: u32, task: u32) -> Result<(), AllocError>
    ensures { OnOk result (subjects.new.items ≡ subjects.old.items ++ transfers_of queues task) }
{
    for queue in 0..queues {
        push_all(subjects, &transfers_at(task, queue))?;
    }
    Ok(())
}

fn push_cores(subjects: &mut Vec<Subject>, cores: u32) -> Result<(), AllocError>
    ensures { OnOk result
        (subjects.new.items ≡ subjects.old.items ++ flat_map core_subjects (numbers cores)) }
{
    for core in 0..cores {
        push_core(subjects, core)?;
    }
    Ok(())
}

fn push_core(subjects: &mut Vec<Subject>, core: u32) -> Result<(), AllocError>
    ensures { OnOk result (subjects.new.items ≡ subjects.old.items ++ core_subjects core) }
{
    subjects.push(Subject::Time(Condition::Busy { core }))?;
    subjects.push(Subject::Time(Condition::Idle { core }))?;
    subjects.push(Subject::Time(Condition::Due { core }))?;
    subjects.push(Subject::Time(Condition::Holding { core }))?;
    subjects.push(Subject::Steps(Event::SwitchedOn { core }))?;
    subjects.push(Subject::Steps(Event::Interrupted { core }))?;
    Ok(())
}

fn push_mutexes(subjects: &mut Vec<Subject>, mutexes: u32) -> Result<(), AllocError>
    ensures { OnOk result
        (subjects.new.items ≡ subjects.old.items ++ flat_map mutex_subjects (numbers mutexes)) }
{
    for mutex in 0..mutexes {
        push_mutex(subjects, mutex)?;
    }
    Ok(())
}

fn push_mutex(subjects: &mut Vec<Subject>, mutex: u32) -> Result<(), AllocError>
    ensures { OnOk result (subjects.new.items ≡ subjects.old.items ++ mutex_subjects mutex) }
{
    subjects.push(Subject::Time(Condition::Held { mutex }))?;
    subjects.push(Subject::MutexWait { mutex })?;
    subjects.push(Subject::Steps(Event::Awaited { mutex }))?;
    subjects.push(Subject::Steps(Event::NotTaken { mutex }))?;
    Ok(())
}

fn push_queues(subjects: &mut Vec<Subject>, queues: u32) -> Result<(), AllocError>
    ensures { OnOk result
        (subjects.new.items ≡ subjects.old.items ++ flat_map queue_subjects (numbers queues)) }
{
    for queue in 0..queues {
        push_all(subjects, &queue_subjects(queue))?;
    }
    Ok(())
}

fn run_subjects() -> [Subject; 3]
    ensures { result ≡ run_subjects }
{
    [
        Subject::Run(Whole::Time),
        Subject::Run(Whole::Steps),
        Subject::Run(Whole::NotMade),
    ]
}

fn queue_subjects(queue: u32) -> [Subject; 4]
    ensures { result ≡ queue_subjects queue }
{
    [
        Subject::MostMessages { queue },
        Subject::Time(Condition::Empty { queue }),
        Subject::Time(Condition::Full { queue }),
        Subject::Steps(Event::QueueAwaited { queue }),
    ]
}
