//! The legend: what stands in it, and where.
ghost use Rattle.std.specs.Prelude.{◌≡◌, ◌++◌, ◌+◌, ◌<◌, ◌≤◌, ◌^◌, IfOk, OnOk, length, string_bytes};
ghost use Rattle.std.specs.List.{list_any};
ghost use Rattle.list_orders.specs.Search.{numbers};
ghost use Rattle.run_pictures.specs.MutexLines.{is_taken};
ghost use Rattle.run_pictures.specs.QueueLines.{is_changed};
ghost use Rattle.run_pictures.specs.Shown.{shown, IsNumbered};
ghost use Rattle.run_pictures.specs.Signs.{across, all_signs, below, drawing, entries_text, entry_text, has_blocked, has_due, has_idle, has_inherited, has_interrupt, has_ready, has_refusal, has_suspended, has_unpreempted, has_user, is_away, is_blocked, is_held, is_interrupt, is_refusal, is_used, legend_height, meaning, moved_text, signs_of, signs_of_both, words_text};

use crate::Made;
use crate::marks::{Mark, mark_at};
use crate::mutex_lines::is_taken;
use crate::panel::Panel;
use crate::pose::stands_ready;
use crate::queue_lines::{is_changed, queues_of};
use crate::stance::{Stance, stance_in, status_in};
use crate::unknown::unknown_in;
use bench_types::Header;
use run_views::Look;
use std::alloc::{AllocError, Global};

/// What stands in a legend.
#[derive(Clone, Copy, Debug, PartialEq, Eq)]
pub(crate) enum Sign {
    Running,
    Ready,
    Blocked,
    Suspended,
    Idle,
    Due,
    Held,
    Inherited,
    PreemptionOff,
    Taken,
    Messages,
    Interrupt,
    Refused,
    /// It is not known what tasks do.
    Unknown,
}

/// In their order.
const SIGNS: [Sign; 14] = [
    Sign::Running,
    Sign::Ready,
    Sign::Blocked,
    Sign::Suspended,
    Sign::Idle,
    Sign::Due,
    Sign::Held,
    Sign::Inherited,
    Sign::PreemptionOff,
    Sign::Taken,
    Sign::Messages,
    Sign::Interrupt,
    Sign::Refused,
    Sign::Unknown,
];

fn has_idle(look: &Look, cores: u32) -> bool
    ensures { result ≡ has_idle cores look.now }
{
    look.cores
        .as_slice()
        .iter()
        .any(|core| core.current < cores)
}

fn has_user(look: &Look, cores: u32) -> bool
    ensures { result ≡ has_user cores look.now }
{
    look.cores
        .as_slice()
        .iter()
        .any(|core| !(core.current < cores))
}

fn has_due(look: &Look) -> bool
    ensures { result ≡ has_due look.now }
{
    look.cores
        .as_slice()
        .iter()
        .any(|core| core.pend || core.asked)
}

fn is_blocked(stance: Stance) -> bool
    ensures { result ≡ is_blocked stance }
{
    match stance {
        Stance::Blocked { .. } => true,
        Stance::Runs { .. } | Stance::Ready | Stance::Suspended => false,
    }
}

fn is_away(stance: Stance) -> bool
    ensures { result ≡ is_away stance }
{
    match stance {
        Stance::Suspended => true,
        Stance::Runs { .. } | Stance::Ready | Stance::Blocked { .. } => false,
    }
}

fn has_ready(header: &Header, look: &Look) -> bool
    requires { header.now.config.cores + length header.now.tasks < 2 ^ 32 }
    ensures { result ≡ has_ready header.now look.now }
{
    let cores = header.config.cores;
    let users = header.tasks.as_slice().len() as u32;
    (0..users).any(|user| stands_ready(stance_in(look, cores + user)))
}

fn has_blocked(header: &Header, look: &Look) -> bool
    requires { header.now.config.cores + length header.now.tasks < 2 ^ 32 }
    ensures { result ≡ has_blocked header.now look.now }
{
    let cores = header.config.cores;
    let users = header.tasks.as_slice().len() as u32;
    (0..users).any(|user| is_blocked(stance_in(look, cores + user)))
}

fn has_suspended(header: &Header, look: &Look) -> bool
    requires { header.now.config.cores + length header.now.tasks < 2 ^ 32 }
    ensures { result ≡ has_suspended header.now look.now }
{
    let cores = header.config.cores;
    let users = header.tasks.as_slice().len() as u32;
    (0..users).any(|user| is_away(stance_in(look, cores + user)))
}

fn has_inherited(header: &Header, look: &Look) -> bool
    requires { header.now.config.cores + length header.now.tasks < 2 ^ 32 }
    ensures { result ≡ has_inherited header.now look.now }
{
    let cores = header.config.cores;
    let users = header.tasks.as_slice().len() as u32;
    (0..users).any(|user| {
        let status = status_in(look, cores + user);
        status.in_use != status.base
    })
}

fn has_unpreempted(header: &Header, look: &Look) -> bool
    requires { header.now.config.cores + length header.now.tasks < 2 ^ 32 }
    ensures { result ≡ has_unpreempted header.now look.now }
{
    let cores = header.config.cores;
    let users = header.tasks.as_slice().len() as u32;
    (0..users).any(|user| !status_in(look, cores + user).preempt)
}

fn is_interrupt(mark: Option<Mark>) -> bool
    ensures { result ≡ is_interrupt mark }
{
    match mark {
        Some(Mark::Interrupt) => true,
        Some(Mark::Refused) | None => false,
    }
}

fn is_refusal(mark: Option<Mark>) -> bool
    ensures { result ≡ is_refusal mark }
{
    match mark {
        Some(Mark::Refused) => true,
        Some(Mark::Interrupt) | None => false,
    }
}

fn has_interrupt(made: &[Made], count: u32) -> bool
    ensures { result ≡ has_interrupt made.now count }
{
    (0..count).any(|k| is_interrupt(mark_at(made, k)))
}

fn has_refusal(made: &[Made], count: u32) -> bool
    ensures { result ≡ has_refusal made.now count }
{
    (0..count).any(|k| is_refusal(mark_at(made, k)))
}

fn some_user(looks: &[Look], cores: u32) -> bool
    ensures { result ≡ list_any (has_user cores) looks.now }
{
    looks.iter().any(|look| has_user(look, cores))
}

fn some_idle(looks: &[Look], cores: u32) -> bool
    ensures { result ≡ list_any (has_idle cores) looks.now }
{
    looks.iter().any(|look| has_idle(look, cores))
}

fn some_ready(looks: &[Look], header: &Header) -> bool
    requires { header.now.config.cores + length header.now.tasks < 2 ^ 32 }
    ensures { result ≡ list_any (has_ready header.now) looks.now }
{
    looks.iter().any(|look| has_ready(header, look))
}

fn some_blocked(looks: &[Look], header: &Header) -> bool
    requires { header.now.config.cores + length header.now.tasks < 2 ^ 32 }
    ensures { result ≡ list_any (has_blocked header.now) looks.now }
{
    looks.iter().any(|look| has_blocked(header, look))
}

fn some_suspended(looks: &[Look], header: &Header) -> bool
    requires { header.now.config.cores + length header.now.tasks < 2 ^ 32 }
    ensures { result ≡ list_any (has_suspended header.now) looks.now }
{
    looks.iter().any(|look| has_suspended(header, look))
}

fn some_due(looks: &[Look]) -> bool
    ensures { result ≡ list_any has_due looks.now }
{
    looks.iter().any(|look| has_due(look))
}

fn some_held(looks: &[Look]) -> bool
    ensures { result ≡ list_any is_held looks.now }
{
    looks.iter().any(|look| look.hold.is_some())
}

fn some_inherited(looks: &[Look], header: &Header) -> bool
    requires { header.now.config.cores + length header.now.tasks < 2 ^ 32 }
    ensures { result ≡ list_any (has_inherited header.now) looks.now }
{
    looks.iter().any(|look| has_inherited(header, look))
}

fn some_unpreempted(looks: &[Look], header: &Header) -> bool
    requires { header.now.config.cores + length header.now.tasks < 2 ^ 32 }
    ensures { result ≡ list_any (has_unpreempted header.now) looks.now }
{
    looks.iter().any(|look| has_unpreempted(header, look))
}

fn some_taken(looks: &[Look], mutexes: u32) -> bool
    ensures { result ≡ list_any (is_taken looks.now) (numbers mutexes) }
{
    (0..mutexes).any(|mutex| is_taken(looks, mutex))
}

fn some_changed(looks: &[Look], queues: u32) -> bool
    ensures { result ≡ list_any (is_changed looks.now) (numbers queues) }
{
    (0..queues).any(|queue| is_changed(looks, queue))
}

// Whether a run has what the sign stands for, at a place that is shown.
fn is_used(panel: &Panel<'_>, sign: Sign) -> bool
    requires { IsNumbered (shown panel.now) }
    ensures { result ≡ is_used (shown panel.now) sign }
{
    let header = panel.header;
    let cores = header.config.cores;
    let looks = panel.run_looks.looks.as_slice();
    let made = panel.run_looks.made.as_slice();
    let count = looks.len() as u32;
    match sign {
        Sign::Running => some_user(looks, cores),
        Sign::Ready => some_ready(looks, header),
        Sign::Blocked => some_blocked(looks, header),
        Sign::Suspended => some_suspended(looks, header),
        Sign::Idle => some_idle(looks, cores),
        Sign::Due => some_due(looks),
        Sign::Held => some_held(looks),
        Sign::Inherited => some_inherited(looks, header),
        Sign::PreemptionOff => some_unpreempted(looks, header),
        Sign::Taken => some_taken(looks, header.config.mutexes),
        Sign::Messages => some_changed(looks, queues_of(header)),
        Sign::Interrupt => has_interrupt(made, count),
        Sign::Refused => has_refusal(made, count),
        Sign::Unknown => unknown_in(panel).is_some(),
    }
}

/// What stands in the legend of a run.
pub(crate) fn signs_of(alloc: Global, panel: &Panel<'_>) -> Result<Vec<Sign>, AllocError>
    requires { IsNumbered (shown panel.now) }
    ensures signs { IfOk result (λ signs. signs.items ≡ signs_of (shown panel.now)) }
    ensures few { IfOk result (λ signs. length signs.items < 2 ^ 32) }
{
    SIGNS
        .iter()
        .copied()
        .filter(|sign| is_used(panel, *sign))
        .collect(alloc)
}

/// What stands in the legend of two runs.
pub(crate) fn signs_of_both(
    alloc: Global,
    before: &Panel<'_>,
    after: &Panel<'_>,
) -> Result<Vec<Sign>, AllocError>
    requires before { IsNumbered (shown before.now) }
    requires after { IsNumbered (shown after.now) }
    ensures signs { IfOk result
        (λ signs. signs.items ≡ signs_of_both (shown before.now) (shown after.now)) }
    ensures few { IfOk result (λ signs. length signs.items < 2 ^ 32) }
{
    SIGNS
        .iter()
        .copied()
        .filter(|sign| is_used(before, *sign) || is_used(after, *sign))
        .collect(alloc)
}

// How the sign looks.
#[tactic(auto, unfolding(crate::specs::Signs::drawing))]
fn drawing(sign: Sign) -> &'static str
    ensures { result.now ≡ drawing sign }
{
    match sign {
        Sign::Running => "<rect class='c0' width='20' height='14'/>",
        Sign::Ready => "<rect class='r c0' y='3' width='20' height='8'/>",
        Sign::Blocked => "<rect class='w' y='5' width='20' height='4'/>",
        Sign::Suspended => "<rect class='i' y='4' width='20' height='6'/>",
        Sign::Idle => "<rect class='i' width='20' height='14'/>",
        Sign::Due => {
            "<rect class='c0' width='20' height='14'/><rect class='d' width='20' height='4'/>"
        }
        Sign::Held => {
            "<rect class='c0' width='20' height='14'/><rect class='h' y='10' width='20' height='4'/>"
        }
        Sign::Inherited => "<rect class='u' y='6' width='20' height='3'/>",
        Sign::PreemptionOff => "<rect class='p' y='6' width='20' height='3'/>",
        Sign::Taken => "<rect class='m c0' width='20' height='14'/>",
        Sign::Messages => "<rect class='q' width='20' height='14'/>",
        Sign::Interrupt => "<path class='n' d='M6 3h8l-4 7z'/>",
        Sign::Refused => "<path class='x' d='M6 3l8 8m0-8l-8 8'/>",
        Sign::Unknown => {
            "<rect class='c0' width='20' height='14'/><rect class='b f' x='8' width='12' height='14'/>\
<path class='y' d='M8 0v14'/>"
        }
    }
}

#[tactic(auto, unfolding(crate::specs::Signs::meaning))]
fn meaning(sign: Sign) -> &'static str
    ensures { result.now ≡ meaning sign }
{
    match sign {
        Sign::Running => "running",
        Sign::Ready => "ready",
        Sign::Blocked => "blocked",
        Sign::Suspended => "suspended",
        Sign::Idle => "idle task",
        Sign::Due => "core due to switch",
        Sign::Held => "core holds the kernel",
        Sign::Inherited => "priority inherited",
        Sign::PreemptionOff => "preemption off",
        Sign::Taken => "mutex held",
        Sign::Messages => "messages in a queue",
        Sign::Interrupt => "interrupt",
        Sign::Refused => "refused",
        Sign::Unknown => "not known",
    }
}

// Where the k-th sign of the legend stands.
fn across(k: u64) -> u64
    ensures { result ≡ across k }
{
    8 + 212 * (k % 4)
}

fn below(y: u64, k: u64) -> u64
    requires y { y < 2 ^ 40 }
    requires k { k < 2 ^ 32 }
    ensures { result ≡ below y k }
{
    y + 18 * (k / 4)
}

// What follows begins there.
fn push_moved(text: &mut String, x: u64, y: u64) -> Result<(), AllocError>
    ensures { OnOk result (string_bytes text.new ≡ string_bytes text.old ++ moved_text x y) }
{
    write!(text, "<g transform='translate({x},{y})'>")
}

// What the sign means, in words beside it.
#[tactic(auto, unfolding(crate::specs::Signs::words_text))]
fn push_words(text: &mut String, sign: Sign) -> Result<(), AllocError>
    ensures { OnOk result (string_bytes text.new ≡ string_bytes text.old ++ words_text sign) }
{
    text.push_str("<text class='s' x='26' y='11'>")?;
    text.push_str(meaning(sign))?;
    text.push_str("</text></g>\n")
}

// The sign that is the k-th of the legend.
#[tactic(auto, unfolding(crate::specs::Signs::entry_text))]
fn push_entry(text: &mut String, y: u64, k: u64, sign: Sign) -> Result<(), AllocError>
    requires y { y < 2 ^ 40 }
    requires k { k < 2 ^ 32 }
    ensures { OnOk result (string_bytes text.new ≡ string_bytes text.old ++ entry_text y k sign) }
{
    push_moved(text, across(k), below(y, k))?;
    text.push_str(drawing(sign))?;
    push_words(text, sign)
}

/// Writes the legend.
pub(crate) fn push_entries(text: &mut String, y: u64, signs: &[Sign]) -> Result<(), AllocError>
    requires y { y < 2 ^ 40 }
    requires few { length signs.now < 2 ^ 32 }
    ensures { OnOk result
        (string_bytes text.new ≡ string_bytes text.old ++ entries_text y signs.now) }
{
    for k in 0..signs.len() {
        push_entry(text, y, k as u64, signs[k])?;
    }
    Ok(())
}

/// How many pixels so many signs take from top to bottom.
pub(crate) fn legend_height(count: usize) -> u64
    requires { count < 2 ^ 32 }
    ensures value { result ≡ legend_height count }
    ensures few { result < 2 ^ 37 }
{
    18 * ((count as u64 + 3) / 4)
}
