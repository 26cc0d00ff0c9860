//! Running the orders of a plan, each in a separate world.

use super::end_line::write_end;
use super::order::{advance, first_order};
use super::plan::OrdersPlan;
use crate::fault::TrialFault;
use rb_world::{Actor, RingSetup, WorkerSetup, World};
use std::alloc::Global;
use std::io::Write;

// The smallest ring, and chapters with room for everything that a few workers do.
const RING: RingSetup = RingSetup {
    size: 4096,
    start: 0,
    room: 64,
};

/// Runs every order of a plan, and writes the line about its final state.
pub(crate) fn run_orders<W: Write>(
    alloc: Global,
    plan: &OrdersPlan,
    out: &mut W,
) -> Result<(), TrialFault> {
    let workers = setups_of(alloc, plan)?;
    let mut order = first_order(alloc, plan)?;
    run_from(alloc, plan, workers.as_slice(), order.as_mut_slice(), out)
}

fn setups_of(alloc: Global, plan: &OrdersPlan) -> Result<Vec<WorkerSetup<'_>>, TrialFault> {
    let mut workers = Vec::new(alloc);
    for worker in &plan.workers {
        workers.push(WorkerSetup {
            program: &worker.program,
            context: &[],
        })?;
    }
    Ok(workers)
}

// Runs this order and those that come after it.
fn run_from<W: Write>(
    alloc: Global,
    plan: &OrdersPlan,
    workers: &[WorkerSetup<'_>],
    order: &mut [u32],
    out: &mut W,
) -> Result<(), TrialFault> {
    let mut steps = Vec::new(alloc);
    for _ in 0..u64::MAX {
        run_one(alloc, plan, workers, order, &mut steps, out)?;
        if !advance(order) {
            break;
        }
    }
    Ok(())
}

// Runs an order in a new world, and writes the line about its final state.
fn run_one<W: Write>(
    alloc: Global,
    plan: &OrdersPlan,
    workers: &[WorkerSetup<'_>],
    order: &[u32],
    steps: &mut Vec<usize>,
    out: &mut W,
) -> Result<(), TrialFault> {
    let Ok(mut world) = World::new(alloc, [RING].as_slice(), workers) else {
        return Err(TrialFault::Memory);
    };
    steps.clear();
    steps.resize(plan.workers.len(), 0)?;
    run_order(plan, &mut world, order, steps.as_mut_slice());
    write_end(&world, plan.count_workers(), out)?;
    Ok(())
}

// Runs the steps of an order.
fn run_order(plan: &OrdersPlan, world: &mut World<'_>, order: &[u32], done: &mut [usize]) {
    for letter in order {
        let place = *letter as usize;
        match (plan.workers.get(place), done.get_mut(place)) {
            (Some(worker), Some(step)) => {
                let turns = worker.steps.get(*step).copied().unwrap_or(0);
                *step = step.wrapping_add(1);
                go(world, Actor::Worker(*letter), turns);
            }
            _ => go(world, Actor::Consumer(0), 1),
        }
        go(world, Actor::Consumer(0), plan.after);
    }
    go(world, Actor::Consumer(0), plan.last);
}

// Runs some turns of an actor that exists.
fn go(world: &mut World<'_>, actor: Actor, turns: u32) {
    for _ in 0..turns {
        if world.has(actor) {
            world.turn(actor);
        }
    }
}
