//! The scripts of all cores, side by side.
ghost use Rattle.std.specs.Prelude.{◌≡◌, ◌≤◌, ℕ, length, map, get_or, All, [], IfOk, None, Ok};
ghost use Rattle.std.specs.Thread.{IsSync};
ghost use Rattle.list_orders.specs.Search.{numbers};
ghost use Rattle.bench_types.specs.Header.{header_check};
ghost use Rattle.bench_types.specs.Limits.{max_steps};
ghost use Rattle.bench_types.specs.Session.{IsSession};
ghost use Rattle.bench_model.specs.History.{steps_of, AreByCurrent, IsLegal};
ghost use Rattle.port_locks.specs.Holds.{hold_after};
ghost use Rattle.core_rig.specs.Closing.{counts};
ghost use Rattle.bench_types.specs.Step.{settings_of};
ghost use Rattle.core_rig.specs.Seats.{IsSeatOf, new_seat};
ghost use Rattle.core_scripts.specs.Played.{ArePlayed};
ghost use Rattle.core_scripts.specs.Scripts.{AreScripts, IsScriptOf};
ghost use Rattle.core_scripts.specs.Threads.{AreEnded, HasDonePart};

use crate::gate::Gate;
use crate::part::part_played;
use bench_types::{CoreAction, Header, Items};
use core_rig::{CoreSeat, Recorded, Rig, RigFault};
use std::alloc::{AllocError, Global};
use std::sync::Wait;
use std::thread::{self, Promise, Threads};

/// What a core's thread promises of the seat that it hands back.
#[derive(Clone, Copy)]
struct Part<'a> {
    rig: &'a Rig,
    script: &'a [CoreAction],
    core: u32,
}

impl<'a> Promise<CoreSeat> for Part<'a> {
    ghost use Rattle.core_scripts.specs.Threads.{HasDonePart};

    ghost kept_by = { λ part seat. HasDonePart part.rig.now part.core part.script.now seat };
}

/// Plays one script per core on a kernel of the header, each in a thread of its own, and gives what
/// was recorded, of at most `limit` entries. Each thread passes the gate before each action.
///
/// An action that the rig refuses is passed over, and a thread whose script has ended closes the
/// holds that it left open. A thread that can't be started is a want of memory; nothing else can be
/// wanting.
pub fn play<R: Threads + Wait + Sync, G: Gate>(
    rt: &R,
    host: &HostRuntime,
    alloc: Global,
    header: &Header,
    limit: u32,
    scripts: &[Items<CoreAction>],
    gate: &G,
) -> Result<Recorded, AllocError>
    requires header { header_check header.now ≡ Ok tt }
    requires limit { limit ≤ max_steps }
    requires scripts { AreScripts header.now scripts.now }
    ensures header { IfOk result (λ it. it.header ≡ header.now) }
    ensures session { IfOk result (λ it.
        IsSession (record { header = it.header; steps = steps_of it.entries })) }
    ensures legal { IfOk result (λ it. IsLegal it.header it.entries) }
    ensures current { IfOk result (λ it. AreByCurrent it.header it.entries) }
    ensures few { IfOk result (λ it. length it.entries ≤ limit) }
    ensures unheld { IfOk result (λ it. hold_after it.header it.entries ≡ None) }
    ensures made { IfOk result (λ it. it.made.items
        ≡ counts header.now.config.cores it.entries) }
    ensures played { IfOk result (λ it. ArePlayed it.header limit it.entries scripts.now) }
{
    let (rig, seats) = match Rig::new(host, alloc, header, limit) {
        Ok(made) => made,
        Err(RigFault::NoMemory) => return Err(AllocError),
        Err(RigFault::BadHeader | RigFault::BadLimit) => unreachable!(),
    };
    let seats = all_parts(rt, alloc, &rig, seats, scripts, gate)?;
    let Ok(recorded) = rig.close(seats) else {
        unreachable!()
    };
    Ok(recorded)
}

fn all_parts<R: Threads + Wait + Sync, G: Gate>(
    rt: &R,
    alloc: Global,
    rig: &Rig,
    seats: Vec<CoreSeat>,
    scripts: &[Items<CoreAction>],
    gate: &G,
) -> Result<Vec<CoreSeat>, AllocError>
    requires seats { seats.items ≡ map (new_seat rig.now) (numbers rig.now.cores) }
    requires scripts { AreScripts rig.now.terms.header scripts.now }
    requires cores { rig.now.cores ≡ rig.now.terms.header.config.cores }
    ensures { IfOk result (λ seats. AreEnded rig.now scripts.now seats.items) }
{
    thread::scope(
        thread::scope_env(),
        rt,
        move |scope| -> Result<Vec<CoreSeat>, AllocError>
            requires shared { IsSync R.row × IsSync G.row }
            requires seats { seats.items ≡ map (new_seat rig.now) (numbers rig.now.cores) }
            requires scripts { AreScripts rig.now.terms.header scripts.now }
            requires cores { rig.now.cores ≡ rig.now.terms.header.config.cores }
            ensures { IfOk result (λ seats. AreEnded rig.entry.now scripts.entry.now seats.items) }
        {
            let mut threads = Vec::new(alloc);
            for seat in seats {
                let core = seat.core();
                let script = scripts[core as usize].as_slice();
                let part = Part { rig, script, core };
                let thread = scope.spawn_with(
                    part,
                    move || -> CoreSeat
                        requires own { IsSeatOf rig.now seat }
                        requires new { seat ≡ new_seat rig.now seat.core }
                        requires script { IsScriptOf (settings_of seat.terms.header) seat.core
                            script.now }
                        ensures { HasDonePart rig.entry.now seat.core script.entry.now
                            result }
                    { part_played(rt, rig, seat, script, gate) },
                )?;
                threads.push(thread)?;
            }
            Ok(thread::join_promised(rt, threads)?)
        },
    )
}
