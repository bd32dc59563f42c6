//! All changes of a family, tried and ranked.
ghost use Rattle.std.specs.Prelude.{◌≡◌, ◌<◌, ◌^◌, All, IfOk, OnErr, OnOk, length};
ghost use Rattle.bench_types.specs.Step.{settings_of};
ghost use Rattle.run_numbers.specs.Readings.{IsSubjectOf};
ghost use Rattle.run_sources.specs.Sources.{header_of};
ghost use Rattle.ranked_changes.specs.Changed.{changed, IsChangeOf, IsHeaderChange};
ghost use Rattle.ranked_changes.specs.Changes.{changes_of};
ghost use Rattle.ranked_changes.specs.Ranking.{AreRead, AreVerdicts, IsRanking};
ghost use Rattle.ranked_changes.specs.Tellings.{TellsSome, TellsUpTo};
ghost use Rattle.ranked_changes.specs.Verdicts.{IsVerdict};

use crate::candidate::judge_change;
use crate::changes::changes_of;
use crate::rank::{size_of, sorted};
use crate::{Change, Family, Judge, Progress, Ranked, Verdict};
use bench_types::Header;
use rayon::prelude::*;
use run_sources::Source;
use smp_kernel::Meter;
use std::alloc::{AllocError, Global};
use std::thread::Threads;

/// The changes of a family, ranked.
#[derive(Debug, Drop)]
pub struct Advice {
    pub changes: Vec<Change>,
    /// An entry for each of the changes, the best first.
    pub ranked: Vec<Ranked>,
}

// So many changes are tried side by side before it is told how far the work is.
const PART: usize = 64;

// What is said of each of these changes, each made alone.
fn part_verdicts<R: Threads + Sync>(
    rt: &R,
    host: &HostRuntime,
    alloc: Global,
    source: &Source,
    changes: &[Change],
    judge: Judge,
) -> Result<Vec<Result<Verdict, AllocError>>, AllocError>
    requires known { IsSubjectOf (settings_of (header_of source.now)) judge.subject }
    requires allowed { All (IsChangeOf source.now) changes.now }
    ensures { IfOk result
        (λ verdicts. AreVerdicts judge source.now changes.now verdicts.items) }
{
    changes
        .par_iter()
        .map(
            |change: &Change| -> Result<Verdict, AllocError>
                requires known { IsSubjectOf (settings_of (header_of source.now)) judge.subject }
                requires allowed { IsChangeOf source.now change.now }
                ensures { IfOk result
                    (IsVerdict judge (changed source.entry.now change.now)) }
            { judge_change(alloc, &mut Meter::new(host), source, *change, judge) },
        )
        .with_min_len(1)
        .collect(rt, alloc)
}

// What is said of each of the changes, part by part.
fn verdicts_of<R: Threads + Sync, P: Progress>(
    rt: &R,
    host: &HostRuntime,
    alloc: Global,
    progress: &mut P,
    source: &Source,
    changes: &[Change],
    judge: Judge,
) -> Result<Vec<Result<Verdict, AllocError>>, AllocError>
    requires known { IsSubjectOf (settings_of (header_of source.now)) judge.subject }
    requires allowed { All (IsChangeOf source.now) changes.now }
    ensures verdicts { IfOk result
        (λ verdicts. AreVerdicts judge source.now changes.now verdicts.items) }
    ensures told { OnOk result
        (TellsUpTo P.tells (length changes.now) (length changes.now) progress.old progress.new) }
    ensures told_some { OnErr result
        (TellsSome P.tells (length changes.now) progress.old progress.new) }
{
    let mut verdicts = Vec::new(alloc);
    let mut done = 0;
    while done < changes.len() {
        let end = done + PART.min(changes.len() - done);
        let part = &changes[done..end];
        let mut more = part_verdicts(rt, host, alloc, source, part, judge)?;
        verdicts.append(&mut more)?;
        done = end;
        progress.tell(done, changes.len());
    }
    Ok(verdicts)
}

// The entries of the changes, in their order. It is an error where one was refused memory.
fn entries_of(
    alloc: Global,
    header: &Header,
    changes: &[Change],
    verdicts: &[Result<Verdict, AllocError>],
) -> Result<Vec<Ranked>, AllocError>
    requires count { length verdicts.now ≡ length changes.now }
    requires few { length changes.now < 2 ^ 32 }
    requires allowed { All (IsHeaderChange header.now) changes.now }
    ensures count { IfOk result (λ entries. length entries.items ≡ length changes.now) }
    ensures read { IfOk result
        (λ entries. AreRead header.now changes.now verdicts.now entries.items) }
{
    let mut entries = Vec::with_capacity(alloc, changes.len())?;
    for place in 0..changes.len() {
        entries.push(Ranked {
            verdict: verdicts[place]?,
            size: size_of(header, changes[place]),
            index: place as u32,
        })?;
    }
    Ok(entries)
}

/// Tries each change of the family in the source, each alone, and ranks them. The work is split
/// among as many threads as there are processors, and a thread that can't be started leaves its
/// part to the one that would have. From time to time the progress is told how many of the changes
/// were tried: more each time, and at the end all.
///
/// The lower number is the better one, of equals the smaller change, of equals the one that comes
/// first among the changes. It is an error only where memory is refused.
pub fn rank_changes<R: Threads + Sync, P: Progress>(
    rt: &R,
    host: &HostRuntime,
    alloc: Global,
    progress: &mut P,
    source: &Source,
    judge: Judge,
    family: Family,
) -> Result<Advice, AllocError>
    requires known { IsSubjectOf (settings_of (header_of source.now)) judge.subject }
    ensures changes { IfOk result
        (λ advice. advice.changes.items ≡ changes_of source.now family) }
    ensures ranked { IfOk result
        (λ advice. IsRanking judge source.now advice.changes.items advice.ranked.items) }
    // Each entry has its change, and each change may be made.
    ensures places { IfOk result
        (λ advice. All (λ entry. entry.index < length advice.changes.items)
        advice.ranked.items) }
    ensures allowed { IfOk result
        (λ advice. All (IsChangeOf source.now) advice.changes.items) }
    ensures told { OnOk result
        (let all = length (changes_of source.now family) in
        TellsUpTo P.tells all all progress.old progress.new) }
    ensures told_some { OnErr result
        (let all = length (changes_of source.now family) in
        TellsSome P.tells all progress.old progress.new) }
{
    let changes = changes_of(alloc, source, family)?;
    let part = changes.as_slice();
    let verdicts = verdicts_of(rt, host, alloc, progress, source, part, judge)?;
    let entries = entries_of(alloc, source.header(), part, verdicts.as_slice())?;
    let ranked = sorted(entries)?;
    Ok(Advice { changes, ranked })
}
