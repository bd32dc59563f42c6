//! The replay of a session.
ghost use Rattle.std.specs.Prelude.{◌≡◌, All, IfOk, Ok};
ghost use Rattle.bench_types.specs.Header.{header_check};
ghost use Rattle.bench_types.specs.Step.{settings_of, step_check};

use crate::lines::{push_reply, push_task};
use crate::state::push_state;
use bench_types::{Header, Reply, Row, Step};
use session_text::read_session;
use slow_replay::replay_slow;
use smp_kernel::{Kernel, Meter};
use std::alloc::{AllocError, Global};

/// The kernel at the end of a session, and the lines of its replay.
pub(crate) struct Played {
    kernel: Kernel,
    pub(crate) lines: String,
}

impl Drop for Played {
    fn drop(self) {
        let Played {
            kernel: _,
            lines: _,
        } = self;
    }
}

impl Played {
    /// Replays a session in its JSON form, if it is one.
    ///
    /// Each place has a line, and where it is asked for those of the state.
    pub(crate) fn of(
        rt: &HostRuntime,
        session: &str,
        with_state: bool,
    ) -> Result<Option<Played>, AllocError> {
        match read_session(rt.alloc(), session.as_bytes()) {
            Ok((header, steps)) => Ok(Some(replayed(rt, &header, &steps, with_state)?)),
            Err(_) => Ok(None),
        }
    }

    /// Whether this end and the other are told the same. Neither session may have a step that is
    /// refused, and each end has to be the same as its copy.
    pub(crate) fn beside(&self, alloc: Global, other: &Played) -> Result<&'static str, AllocError> {
        if !is_copied(alloc, &self.kernel)? || !is_copied(alloc, &other.kernel)? {
            return Ok("a copy differs");
        }
        if self.has_refusal() || other.has_refusal() {
            return Ok("a step is refused");
        }
        Ok(printed(&self.kernel, &other.kernel))
    }

    fn has_refusal(&self) -> bool {
        self.lines.contains(" refused ")
    }
}

fn is_copied(alloc: Global, kernel: &Kernel) -> Result<bool, AllocError> {
    let copy = kernel.copy(alloc)?;
    Ok(kernel.same(&copy))
}

fn printed(one: &Kernel, two: &Kernel) -> &'static str {
    match (one.same(two), two.same(one)) {
        (true, true) => "same",
        (false, false) => "differ",
        _ => "same one way",
    }
}

/// Replays by the kernel, and says where the definitions give another reply or other tasks.
fn replayed(
    rt: &HostRuntime,
    header: &Header,
    steps: &[Step],
    with_state: bool,
) -> Result<Played, AllocError>
    requires header { header_check header.now ≡ Ok tt }
    requires steps { All (λ step. step_check (settings_of header.now) step ≡ Ok tt) steps.now }
{
    let outcomes = replay_slow(rt, rt.alloc(), header, steps)?;
    let mut meter = Meter::new(rt);
    replayed_beside(rt.alloc(), &mut meter, header, steps, &outcomes, with_state)
}

fn replayed_beside(
    alloc: Global,
    meter: &mut Meter,
    header: &Header,
    steps: &[Step],
    outcomes: &[(Reply, Row)],
    with_state: bool,
) -> Result<Played, AllocError>
    requires { All (λ step. step_check (settings_of header.now) step ≡ Ok tt) steps.now }
{
    let mut played = started(alloc, header, with_state)?;
    push_steps(&mut played, meter, header, steps, outcomes, with_state)?;
    Ok(played)
}

fn started(alloc: Global, header: &Header, with_state: bool) -> Result<Played, AllocError>
    ensures { IfOk result (λ played. played.kernel.settings ≡ settings_of header.now) }
{
    let kernel = kernel_of(alloc, header)?;
    let lines = first_lines(alloc, header, &kernel, with_state)?;
    Ok(Played { kernel, lines })
}

fn kernel_of(alloc: Global, header: &Header) -> Result<Kernel, AllocError>
    ensures { IfOk result (λ kernel. kernel.settings ≡ settings_of header.now) }
{
    match Kernel::start(alloc, header) {
        Ok(kernel) => Ok(kernel),
        // the header was checked, so only memory is wanting
        Err(_) => Err(AllocError),
    }
}

fn first_lines(
    alloc: Global,
    header: &Header,
    kernel: &Kernel,
    with_state: bool,
) -> Result<String, AllocError> {
    let mut lines = String::from_str(alloc, "start")?;
    push_place(&mut lines, header, kernel, with_state)?;
    Ok(lines)
}

fn push_steps(
    played: &mut Played,
    meter: &mut Meter,
    header: &Header,
    steps: &[Step],
    outcomes: &[(Reply, Row)],
    with_state: bool,
) -> Result<(), AllocError>
    requires { All (λ step. step_check played.old.kernel.settings step ≡ Ok tt) steps.now }
{
    for (index, step) in steps.iter().enumerate() {
        let reply = played.kernel.step(meter, step);
        push_outcome(played, header, index, reply, with_state)?;
        push_doubt(played, reply, outcomes.get(index))?;
    }
    Ok(())
}

/// The line of a step.
fn push_outcome(
    played: &mut Played,
    header: &Header,
    index: usize,
    reply: Reply,
    with_state: bool,
) -> Result<(), AllocError>
    ensures { played.new.kernel ≡ played.old.kernel }
{
    write!(played.lines, "{index} ")?;
    push_reply(&mut played.lines, reply)?;
    push_place(&mut played.lines, header, &played.kernel, with_state)
}

/// A line where the definitions give another outcome.
fn push_doubt(
    played: &mut Played,
    reply: Reply,
    outcome: Option<&(Reply, Row)>,
) -> Result<(), AllocError>
    ensures { played.new.kernel ≡ played.old.kernel }
{
    if is_outcome(outcome, reply, &played.kernel) {
        return Ok(());
    }
    write!(played.lines, "by the definitions {outcome:?}\n")
}

fn is_outcome(outcome: Option<&(Reply, Row)>, reply: Reply, kernel: &Kernel) -> bool {
    match outcome {
        Some((other, row)) => *other == reply && are_running(kernel, row.as_slice()),
        None => false,
    }
}

/// Whether these are the tasks that run, core 0 first.
fn are_running(kernel: &Kernel, tasks: &[u32]) -> bool {
    let cores = kernel.settings().cores;
    for core in 0..cores {
        if tasks.get(core as usize).copied() != Some(kernel.running(core)) {
            return false;
        }
    }
    tasks.len() == cores as usize
}

/// The end of a place's line, and the lines of its state.
fn push_place(
    text: &mut String,
    header: &Header,
    kernel: &Kernel,
    with_state: bool,
) -> Result<(), AllocError> {
    for core in 0..kernel.settings().cores {
        push_task(text, header, kernel.running(core))?;
    }
    text.push_str("\n")?;
    if with_state {
        push_state(text, header, kernel)?;
    }
    Ok(())
}
