//! How much of a run each task had each core, in percent.
ghost use Rattle.std.specs.Prelude.{◌≡◌, ◌<◌, ◌+◌, ◌^◌, ◌++◌, IfOk, Ok, OnOk, find, flat_map, length, map, string_bytes};
ghost use Rattle.list_orders.specs.Search.{numbers};
ghost use Rattle.bench_types.specs.Header.{header_check};
ghost use Rattle.core_loads.specs.Loads.{cell_text, core_head, head_text, idle_row, is_load, is_time_of, is_total, load_table, percent_text, row_text, share, task_row, time_of, total, times_of_idle, times_of_task};

use bench_types::Header;
use report_figures::{Figure, Part, push_cell};
use run_numbers::{Condition, Subject, Whole};
use std::alloc::{AllocError, Global};

/// A time that a table of loads tells.
#[derive(Clone, Copy, Debug, PartialEq, Eq)]
pub enum Load {
    /// That of the task on the core.
    OfTask { task: u32, core: u32 },
    /// That of the core with an idle task.
    OfIdle { core: u32 },
    /// That of the whole run.
    OfRun,
}

fn is_time_of(load: Load, subject: Subject) -> bool
    ensures { result ≡ is_time_of load subject }
{
    match (load, subject) {
        (
            Load::OfTask { task, core },
            Subject::Time(
                Condition::RunningOn {
                    task: runs,
                    core: on,
                },
            ),
        ) => runs == task && on == core,
        (Load::OfIdle { core }, Subject::Time(Condition::Idle { core: on })) => on == core,
        (Load::OfRun, Subject::Run(Whole::Time)) => true,
        _ => false,
    }
}

fn is_total(part: Part) -> bool
    ensures { result ≡ is_total part }
{
    matches!(part, Part::Total)
}

fn is_load(load: Load, figure: Figure) -> bool
    ensures { result ≡ is_load load figure }
{
    is_total(figure.part) && is_time_of(load, figure.subject)
}

fn figure_of(figures: &[Figure], load: Load) -> Option<Figure>
    ensures { result ≡ find (is_load load) figures.now }
{
    for figure in figures {
        if is_load(load, *figure) {
            return Some(*figure);
        }
    }
    None
}

/// The time among the figures, 0 where there is none.
pub fn time_of(figures: &[Figure], load: Load) -> u64
    ensures { result ≡ time_of figures.now load }
{
    match figure_of(figures, load) {
        Some(figure) => figure.value,
        None => 0,
    }
}

/// The times of the task on each core, in units.
pub fn times_of_task(
    alloc: Global,
    figures: &[Figure],
    cores: u32,
    task: u32,
) -> Result<Vec<u64>, AllocError>
    ensures { IfOk result (λ times. times.items ≡ times_of_task figures.now cores task) }
{
    let mut times = Vec::with_capacity(alloc, cores as usize)?;
    for core in 0..cores {
        times.push(time_of(figures, Load::OfTask { task, core }))?;
    }
    Ok(times)
}

/// The times of each core with an idle task, in units.
pub fn times_of_idle(alloc: Global, figures: &[Figure], cores: u32) -> Result<Vec<u64>, AllocError>
    ensures { IfOk result (λ times. times.items ≡ times_of_idle figures.now cores) }
{
    let mut times = Vec::with_capacity(alloc, cores as usize)?;
    for core in 0..cores {
        times.push(time_of(figures, Load::OfIdle { core }))?;
    }
    Ok(times)
}

/// The tenths of a percent that a time is of the run's, to the nearest; at most 2^64 - 1.
pub fn share(time: u128, run: u64) -> u64
    requires run { 0 < run }
    requires room { time < 2 ^ 97 }
    ensures { result ≡ share time run }
{
    let run = u128::from(run);
    let tenths = (time * 1000 + run / 2) / run;
    tenths.min(u128::from(u64::MAX)) as u64
}

// So many tenths of a percent.
#[tactic(auto, unfolding(crate::specs::Loads::percent_text))]
fn percent_text(alloc: Global, tenths: u64) -> Result<String, AllocError>
    ensures { IfOk result (λ text. string_bytes text ≡ percent_text tenths) }
{
    let mut text = String::new(alloc);
    write!(text, "{}.{}%", tenths / 10, tenths % 10)?;
    Ok(text)
}

// A time in a column, with a space behind it.
#[tactic(auto, unfolding(crate::specs::Loads::cell_text))]
fn push_share(alloc: Global, text: &mut String, run: u64, time: u128) -> Result<(), AllocError>
    requires run { 0 < run }
    requires room { time < 2 ^ 97 }
    ensures { OnOk result (string_bytes text.new ≡ string_bytes text.old ++ cell_text run time) }
{
    let cell = percent_text(alloc, share(time, run))?;
    push_cell(text, cell.as_str())?;
    text.push_str(" ")
}

// Each time in a column.
fn push_shares(alloc: Global, text: &mut String, run: u64, times: &[u64]) -> Result<(), AllocError>
    requires { 0 < run }
    ensures { OnOk result
        (string_bytes text.new
        ≡ string_bytes text.old ++ flat_map (cell_text run) times.now) }
{
    for time in times {
        push_share(alloc, text, run, u128::from(*time))?;
    }
    Ok(())
}

/// All times together.
pub fn total(times: &[u64]) -> u128
    requires { length times.now < 2 ^ 32 }
    ensures value { result ≡ total times.now }
    ensures room { result < 2 ^ 97 }
{
    let mut all = 0u128;
    for time in times {
        all += u128::from(*time);
    }
    all
}

#[tactic(auto, unfolding(crate::specs::Loads::row_text))]
fn push_row(
    alloc: Global,
    text: &mut String,
    run: u64,
    times: &[u64],
    name: &str,
) -> Result<(), AllocError>
    requires run { 0 < run }
    requires few { length times.now < 2 ^ 32 }
    ensures { OnOk result
        (string_bytes text.new ≡ string_bytes text.old ++ row_text run times.now name.now) }
{
    push_shares(alloc, text, run, times)?;
    push_share(alloc, text, run, total(times))?;
    text.push_str(name)?;
    text.push_str("\n")
}

#[tactic(auto, unfolding(crate::specs::Loads::core_head))]
fn push_core_head(alloc: Global, text: &mut String, core: u32) -> Result<(), AllocError>
    ensures { OnOk result (string_bytes text.new ≡ string_bytes text.old ++ core_head core) }
{
    let head = format!(in alloc; "core {core}")?;
    push_cell(text, head.as_str())?;
    text.push_str(" ")
}

fn push_core_heads(alloc: Global, text: &mut String, cores: u32) -> Result<(), AllocError>
    ensures { OnOk result
        (string_bytes text.new
        ≡ string_bytes text.old ++ flat_map core_head (numbers cores)) }
{
    for core in 0..cores {
        push_core_head(alloc, text, core)?;
    }
    Ok(())
}

#[tactic(auto, unfolding(crate::specs::Loads::head_text))]
fn push_head(alloc: Global, text: &mut String, cores: u32, title: &str) -> Result<(), AllocError>
    ensures { OnOk result
        (string_bytes text.new ≡ string_bytes text.old ++ head_text cores title.now) }
{
    push_core_heads(alloc, text, cores)?;
    push_cell(text, "all")?;
    text.push_str(" ")?;
    text.push_str(title)?;
    text.push_str("\n")
}

#[tactic(auto, unfolding(crate::specs::Loads::task_row))]
fn push_task_row(
    alloc: Global,
    text: &mut String,
    header: &Header,
    figures: &[Figure],
    user: u32,
) -> Result<(), AllocError>
    requires run { 0 < time_of figures.now Load.OfRun }
    requires user { header.now.config.cores + user < 2 ^ 32 }
    ensures { OnOk result
        (string_bytes text.new
        ≡ string_bytes text.old ++ task_row header.now figures.now user) }
{
    let cores = header.config.cores;
    let times = times_of_task(alloc, figures, cores, cores + user)?;
    let mut name = String::new(alloc);
    header.push_name(&mut name, cores + user)?;
    let run = time_of(figures, Load::OfRun);
    push_row(alloc, text, run, times.as_slice(), name.as_str())
}

fn push_task_rows(
    alloc: Global,
    text: &mut String,
    header: &Header,
    figures: &[Figure],
) -> Result<(), AllocError>
    requires run { 0 < time_of figures.now Load.OfRun }
    requires users { header.now.config.cores + length header.now.tasks < 2 ^ 32 }
    ensures { OnOk result
        (string_bytes text.new
        ≡ string_bytes text.old
        ++ flat_map (task_row header.now figures.now) (numbers (length header.now.tasks))) }
{
    for user in 0..header.tasks.as_slice().len() {
        push_task_row(alloc, text, header, figures, user as u32)?;
    }
    Ok(())
}

#[tactic(auto, unfolding(crate::specs::Loads::idle_row))]
fn push_idle_row(
    alloc: Global,
    text: &mut String,
    header: &Header,
    figures: &[Figure],
) -> Result<(), AllocError>
    requires { 0 < time_of figures.now Load.OfRun }
    ensures { OnOk result
        (string_bytes text.new ≡ string_bytes text.old ++ idle_row header.now figures.now) }
{
    let times = times_of_idle(alloc, figures, header.config.cores)?;
    let run = time_of(figures, Load::OfRun);
    push_row(alloc, text, run, times.as_slice(), "idle")
}

/// Writes the table of loads under an empty line after the text: for each user task, and for the
/// idle tasks together, how much of the run's time each core had it, in percent to the nearest
/// tenth, and how much all cores had it. The title stands behind the heads of the columns. Of a run
/// that takes no time nothing is written.
#[tactic(auto, unfolding(crate::specs::Loads::load_table), using(bench_types::proofs::Passes::checked_header))]
pub fn push_load_table(
    alloc: Global,
    text: &mut String,
    header: &Header,
    figures: &[Figure],
    title: &str,
) -> Result<(), AllocError>
    requires { header_check header.now ≡ Ok tt }
    ensures { OnOk result
        (string_bytes text.new
        ≡ string_bytes text.old ++ load_table header.now figures.now title.now) }
{
    if time_of(figures, Load::OfRun) == 0 {
        return Ok(());
    }
    text.push_str("\n")?;
    push_head(alloc, text, header.config.cores, title)?;
    push_task_rows(alloc, text, header, figures)?;
    push_idle_row(alloc, text, header, figures)
}
