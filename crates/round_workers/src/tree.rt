//! The fork tree of a round: a seat is split down to width 1, left to right, and each worker has
//! one part.

ghost use Rattle.std.specs.Thread.{IsSync};
ghost use Rattle.std.specs.Prelude.{◌≡◌, ◌≢◌, ◌<◌, ◌+◌, ◌^◌, Err, IfOk, IfErr};
ghost use Rattle.claim_round.specs.Shared.{IsOf};
ghost use Rattle.round_workers.specs.Work.{IsWorked};

use crate::gate::Gate;
use crate::shared_seats::Sharing;
use claim_round::RoundSeat;
use solver::SolveFault;
use std::snapshot::Snapshot;
use std::sync::Wait;
use std::thread;
use std::thread::{Promise, Threads};

/// A worker gives back the seat that it was given, worked to the end.
#[derive(Drop)]
struct Worked(Snapshot<RoundSeat>);

impl Promise<Result<RoundSeat, SolveFault>> for Worked {
    ghost use Rattle.std.specs.Prelude.{◌≢◌, IfOk, IfErr};
    ghost use Rattle.round_workers.specs.Work.{IsWorked};
    ghost use Rattle.solver.specs.declared.fault.SolveFault.TheVariants.{TooLarge};

    ghost kept_by = { λ p r. IfOk r (λ s. IsWorked p.0.value s) × IfErr r (λ f. f ≢ TooLarge) };
}

/// One worker's part of a round: it passes `gate`, works `seat` to the end, and leaves.
fn worker<W: Sharing, G: Gate>(
    round: &W,
    gate: &G,
    worker: u32,
    number: u32,
    mut seat: RoundSeat,
) -> RoundSeat
    requires mine { IsOf (W.id round.now) seat }
    requires width { seat.view.has.width ≡ 1 }
    ensures { IsWorked seat result }
{
    gate.pass(worker, number, &seat);
    round.work(&mut seat);
    gate.leave(worker, number, &seat);
    seat
}

/// Works off `seat` by one worker for each part of its width, numbered from `first` on. A seat of
/// width 1 is worked on this thread.
#[cycle(tree)]
pub fn share<W: Sharing + Sync, G: Gate, R: Threads + Wait + Sync>(
    rt: &R,
    round: &W,
    gate: &G,
    first: u32,
    number: u32,
    seat: RoundSeat,
) -> Result<RoundSeat, SolveFault>
    requires mine { IsOf (W.id round.now) seat }
    requires workers { first + seat.view.has.width < 2 ^ 32 }
    ensures worked { IfOk result (λ r. IsWorked seat r) }
    ensures fault { IfErr result (λ f. f ≢ SolveFault.TooLarge) }
    ensures worker { result ≡ Err SolveFault.Worker → 1 < seat.view.has.width }
{
    if seat.width() == 1 {
        return Ok(worker(round, gate, first, number, seat));
    }
    let halves = round.split(seat)?;
    let (left, right) = apart(rt, round, gate, first, number, halves)?;
    round.join(left, right)
}

/// Works off both seats: the right one from a new thread on, the left one from this.
#[cycle(tree)]
fn apart<W: Sharing + Sync, G: Gate, R: Threads + Wait + Sync>(
    rt: &R,
    round: &W,
    gate: &G,
    first: u32,
    number: u32,
    seats: (RoundSeat, RoundSeat),
) -> Result<(RoundSeat, RoundSeat), SolveFault>
    requires left { IsOf (W.id round.now) seats.0 }
    requires right { IsOf (W.id round.now) seats.1 }
    requires workers { first + seats.0.view.has.width + seats.1.view.has.width < 2 ^ 32 }
    ensures worked { IfOk result (λ r. IsWorked seats.0 r.0 × IsWorked seats.1 r.1) }
    ensures fault { IfErr result (λ f. f ≢ SolveFault.TooLarge) }
{
    let (left, right) = seats;
    thread::scope(
        thread::scope_env(),
        rt,
        move |scope| -> Result<(RoundSeat, RoundSeat), SolveFault>
            requires sync { IsSync R.row }
            requires left { IsOf (W.id round.now) left }
            requires right { IsOf (W.id round.now) right }
            requires workers { first + left.view.has.width + right.view.has.width < 2 ^ 32 }
            ensures worked { IfOk result (λ r. IsWorked left r.0 × IsWorked right r.1) }
            ensures fault { IfErr result (λ f. f ≢ SolveFault.TooLarge) }
        {
            let other = first + left.width();
            let promise = Worked(Snapshot::of(&right));
            let started = scope.spawn_with(
                promise,
                move || -> Result<RoundSeat, SolveFault>
                    requires sync { IsSync R.row }
                    requires mine { IsOf (W.id round.now) right }
                    requires workers { other + right.view.has.width < 2 ^ 32 }
                    ensures worked { IfOk result (λ r. IsWorked right r) }
                    ensures fault { IfErr result (λ f. f ≢ SolveFault.TooLarge) }
                { share(rt, round, gate, other, number, right) },
            );
            let Ok(child) = started else {
                return Err(SolveFault::Worker);
            };
            let mine = share(rt, round, gate, first, number, left);
            let theirs = child.join(rt);
            Ok((mine?, theirs?))
        },
    )
}
