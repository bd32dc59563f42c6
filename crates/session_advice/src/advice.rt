//! Advice on a number of a source's run.
ghost use Rattle.std.specs.Prelude.{◌≡◌, IfErr, IfOk, OnErr, OnOk, length, string_bytes, take};
ghost use Rattle.ranked_changes.specs.Changes.{changes_of};
ghost use Rattle.ranked_changes.specs.Tellings.{TellsSome, TellsUpTo};
ghost use Rattle.run_sources.specs.Sources.{IsFaultOf};
ghost use Rattle.session_advice.specs.Advice.{IsAdvice, IsAdviceText};
ghost use Rattle.session_advice.specs.Basis.{basis_of, IsBasis};
ghost use Rattle.session_advice.specs.Telling.{TellsByFault, TellsByStatus};

use crate::basis::{Base, judge_of};
use crate::entries::{push_entries, push_head};
use crate::question::{AdviceStatus, Advised, Question};
use ranked_changes::{Family, Progress, Ranked, rank_changes};
use report_figures::figure_called;
use run_sources::{RunFault, Source, make_run};
use session_reports::{figures_of_run, unknown_text};
use smp_kernel::Meter;
use std::alloc::{AllocError, Global};
use std::thread::Threads;

// The first of them, as many as are wanted.
fn best_of(ranked: &[Ranked], best: u32) -> &[Ranked]
    ensures { result.now ≡ take best ranked.now }
{
    &ranked[..ranked.len().min(best as usize)]
}

// The changes of the family, tried and ranked, and the best of them with what they cost.
fn advice_text<R: Threads + Sync, P: Progress>(
    rt: &R,
    host: &HostRuntime,
    alloc: Global,
    meter: &mut Meter,
    progress: &mut P,
    base: &Base<'_>,
    family: Family,
    best: u32,
) -> Result<String, AllocError>
    requires { IsBasis (basis_of base.now) }
    ensures text { IfOk result
        (λ text. IsAdviceText (basis_of base.now) family best (string_bytes text)) }
    ensures told { OnOk result
        (let all = length (changes_of (basis_of base.now).source family)
        in TellsUpTo P.tells all all progress.old progress.new) }
    ensures told_some { OnErr result
        (let all = length (changes_of (basis_of base.now).source family)
        in TellsSome P.tells all progress.old progress.new) }
{
    let judge = judge_of(base);
    let advice = rank_changes(rt, host, alloc, progress, base.source, judge, family)?;
    let changes = advice.changes.as_slice();
    let best = best_of(advice.ranked.as_slice(), best);
    let mut text = String::new(alloc);
    push_head(&mut text, base, changes.len())?;
    push_entries(alloc, meter, &mut text, base, changes, best)?;
    Ok(text)
}

/// Which changes of the family make the number of the source's run lower that has the name: the
/// best of them with what each costs other tasks.
///
/// There is no advice where the source itself is too long. The work is split among threads as that
/// of [`rank_changes`], and the progress is told as there.
pub fn advise<R: Threads + Sync, P: Progress>(
    rt: &R,
    host: &HostRuntime,
    alloc: Global,
    meter: &mut Meter,
    progress: &mut P,
    source: &Source,
    question: &Question,
) -> Result<Advised, RunFault>
    ensures advice { IfOk result (λ printed. IsAdvice question.now source.now printed) }
    ensures fault { IfErr result (IsFaultOf source.now) }
    // How many of the changes were tried, where any were.
    ensures told { IfOk result
        (λ printed. let all = length (changes_of source.now question.now.family)
        in TellsByStatus P.tells printed.status all progress.old progress.new) }
    ensures told_some { IfErr result
        (λ fault. let all = length (changes_of source.now question.now.family)
        in TellsByFault P.tells fault all progress.old progress.new) }
{
    let run = make_run(alloc, source, meter)?;
    let own = figures_of_run(alloc, meter, &run)?;
    let (header, figures) = (source.header(), own.as_slice());
    let Some(judged) = figure_called(alloc, header, figures, question.name.as_str())? else {
        return Ok(Advised {
            status: AdviceStatus::Unknown,
            text: unknown_text(alloc, header, figures, question.name.as_str())?,
        });
    };
    let base = Base {
        source,
        figures,
        judged,
    };
    let (family, best) = (question.family, question.best);
    let text = advice_text(rt, host, alloc, meter, progress, &base, family, best)?;
    Ok(Advised {
        status: AdviceStatus::Given,
        text,
    })
}
