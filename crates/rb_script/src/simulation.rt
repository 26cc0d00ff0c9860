//! Runs a script's turns and writes their lines.

ghost use Rattle.std.specs.Prelude.{◌≡◌, ◌≤◌, ◌⊎◌, ◌++◌, ℕ, All, length, map, Err, IfOk, IfErr, OnOk, OnErr};
ghost use Rattle.rb_world.specs.WorldValue.{IsThere, world_of};
ghost use Rattle.rb_world.specs.declared.actor.Actor.TheVariants.{Worker, Consumer};
ghost use Rattle.std.specs.List.{AllZip};
ghost use Rattle.rb_script.specs.Programs.{IsFirstRefused, IsWorkersProgram, IsProgramsFault};
ghost use Rattle.rb_script.specs.Scripts.{MayRunScript, worker_text};
ghost use Rattle.rb_script.specs.Simulation.{AreSetups, BeginsRun, BeginsSimulationWith, BreaksOff, Simulates, SimulatesWith, WritesRun, drawing_of, drawings, lines_below, worker_line, ring_end_of, world_text};
ghost use Rattle.rb_script.specs.inner.ShownTurns.{consumer_text, keeper_text, last_line, shown_text};

use crate::drawings::push_drawing;
use crate::output_lines::{push_at, push_chapter, push_done, push_ring, push_take};
use crate::programs::programs_of;
use crate::script::{Script, ScriptWorker};
use crate::script_fault::ScriptFault;
use crate::turn_watch::TurnWatch;
use rb_history::{CONS_POS, PROD_POS, Taken};
use rb_json::LineForm;
use rb_verifier::Verified;
use rb_world::{Actor, TurnDone, WorkerSetup, World, WorldOpenFault};
use std::alloc::{AllocError, Global};

impl<'a> Script<'a> {
    /// Verifies the script's programs and runs its turns. Appends a line to the text for each take and each chapter
    /// and, with `draw`, the drawings of the rings after each turn. Returns the lines of the workers and rings at the
    /// end. All lines have the requested form. Calls the watch after each turn.
    ///
    /// If a program is refused, returns its line; nothing is run or written. If memory runs out, the text ends with the
    /// whole lines of the turns made so far. Every script that was read can be run.
    pub fn simulate<V: TurnWatch>(
        &self,
        alloc: Global,
        draw: bool,
        form: LineForm,
        text: &mut Vec<u8>,
        watch: &V,
    ) -> Result<Vec<u8>, ScriptFault>
        requires may_run { MayRunScript self.now }
        ensures ran { IfOk result (λ ends. Simulates form draw self.now text.old.items text.new.items ends.items) }
        ensures refused { IfErr result (IsProgramsFault (length self.now.rings.items) (map worker_text self.now.workers.items)) }
        ensures only_refused { (line : ℕ) → IsFirstRefused (length self.now.rings.items) (map worker_text self.now.workers.items) line
            → (result ≡ Err (ScriptFault.Line line)) ⊎ (result ≡ Err ScriptFault.Memory) }
        ensures unwritten { (line : ℕ) → result ≡ Err (ScriptFault.Line line) → text.new.items ≡ text.old.items }
        ensures begun { OnErr result (BreaksOff form draw self.now text.old.items text.new.items) }
    {
        let programs = match programs_of(alloc, self.workers.as_slice(), self.rings.len()) {
            Ok(programs) => programs,
            Err(fault) => return Err(fault),
        };
        match self.simulate_with(alloc, programs.as_slice(), draw, form, text, watch) {
            Ok(ends) => Ok(ends),
            Err(_) => Err(ScriptFault::Memory),
        }
    }

    // Runs the script with each worker's program.
    fn simulate_with<V: TurnWatch>(
        &self,
        alloc: Global,
        programs: &[Verified],
        draw: bool,
        form: LineForm,
        text: &mut Vec<u8>,
        watch: &V,
    ) -> Result<Vec<u8>, AllocError>
        requires may_run { MayRunScript self.now }
        requires accepted { AllZip (IsWorkersProgram (length self.now.rings.items)) (map worker_text self.now.workers.items) programs.now }
        ensures ran { IfOk result (λ ends. SimulatesWith form draw self.now programs.now text.old.items text.new.items ends.items) }
        ensures begun { OnErr result ((text.new.items ≡ text.old.items) ⊎ BeginsSimulationWith form draw self.now programs.now text.old.items text.new.items) }
    {
        let setups = setups_of(alloc, self.workers.as_slice(), programs)?;
        let mut world = match World::new(alloc, self.rings.as_slice(), setups.as_slice()) {
            Ok(world) => world,
            Err(fault) => return Err(want_of_memory(fault)),
        };
        run(
            alloc,
            &mut world,
            self.actors.as_slice(),
            draw,
            form,
            text,
            watch,
        )?;
        ends_of(alloc, &world, form)
    }
}

// Opening a world for a script that was read can fail only for memory.
fn want_of_memory(fault: WorldOpenFault) -> AllocError
    requires memory { fault ≡ WorldOpenFault.Memory }
{
    match fault {
        WorldOpenFault::Memory => AllocError,
        _ => unreachable!(),
    }
}

// Returns the workers with their programs.
fn setups_of<'p>(
    alloc: Global,
    workers: &'p [ScriptWorker<'_>],
    programs: &'p [Verified],
) -> Result<Vec<WorkerSetup<'p>>, AllocError>
    requires alike { length programs.now ≡ length workers.now }
    ensures setups { IfOk result (λ setups. AreSetups workers.now programs.now setups.items) }
{
    let mut setups = Vec::new(alloc);
    for i in 0..programs.len() {
        let worker = &workers[i];
        setups.push(WorkerSetup {
            program: &programs[i],
            context: worker.context.as_slice(),
        })?;
    }
    Ok(setups)
}

// Runs the turns and appends their lines. If memory runs out, the lines of the earlier turns remain.
fn run<V: TurnWatch>(
    alloc: Global,
    world: &mut World<'_>,
    actors: &[Actor],
    draw: bool,
    form: LineForm,
    text: &mut Vec<u8>,
    watch: &V,
) -> Result<(), AllocError>
    requires there { All (IsThere world.old) actors.now }
    requires few { length world.old.rings ≤ 16 }
    ensures written { OnOk result (WritesRun form draw actors.now world.old world.new text.old.items text.new.items) }
    ensures begun { OnErr result (BeginsRun form draw actors.now world.old text.old.items text.new.items) }
    ensures workers { length world.new.machines ≡ length world.old.machines }
    ensures rings { length world.new.rings ≡ length world.old.rings }
{
    let mut line = Vec::new(alloc);
    for actor in actors {
        let done = world.turn(*actor);
        if done == TurnDone::Memory {
            return Err(AllocError);
        }
        line.clear();
        let Ok(()) = push_drawn_turn(alloc, world, *actor, done, draw, form, &mut line) else {
            return Err(AllocError);
        };
        let Ok(()) = text.extend_from_slice(line.as_slice()) else {
            return Err(AllocError);
        };
        watch.turned(actors.len());
    }
    Ok(())
}

// Appends the line of a turn that was just made, if it has one, and the drawings of the rings if `draw` is set.
fn push_drawn_turn(
    alloc: Global,
    world: &World<'_>,
    actor: Actor,
    done: TurnDone,
    draw: bool,
    form: LineForm,
    text: &mut Vec<u8>,
) -> Result<(), AllocError>
    requires there { IsThere world.now actor }
    requires few { length world.now.rings ≤ 16 }
    ensures lines { OnOk result (text.new.items ≡ text.old.items ++ (shown_text form actor done (world_of world.now) ++ drawings form draw world.now)) }
{
    push_turn(alloc, world, actor, done, form, text)?;
    if draw {
        push_drawings(world, form, text)
    } else {
        text.extend_from_slice(b"")
    }
}

// Appends the line of a turn that was just made, if it has one.
fn push_turn(
    alloc: Global,
    world: &World<'_>,
    actor: Actor,
    done: TurnDone,
    form: LineForm,
    text: &mut Vec<u8>,
) -> Result<(), AllocError>
    requires there { IsThere world.now actor }
    ensures line { OnOk result (text.new.items ≡ text.old.items ++ shown_text form actor done (world_of world.now)) }
{
    match actor {
        Actor::Worker(_) => Ok(()),
        Actor::Consumer(r) => push_consumer(alloc, r, done, world.taken(r), form, text),
        Actor::Keeper(r) => push_keeper(r, done, form, text),
    }
}

// Appends the line of a consumer's turn, from what was taken up to then.
fn push_consumer(
    alloc: Global,
    r: u32,
    done: TurnDone,
    taken: &[Taken],
    form: LineForm,
    text: &mut Vec<u8>,
) -> Result<(), AllocError>
    ensures line { OnOk result (text.new.items ≡ text.old.items ++ consumer_text form r done taken.now) }
{
    match done {
        TurnDone::Took | TurnDone::Skipped => push_last(alloc, r, taken, form, text),
        TurnDone::BusyFront => push_take(alloc, text, form, r, &Taken::BusyFront),
        TurnDone::Empty => push_take(alloc, text, form, r, &Taken::Empty),
        _ => Ok(()),
    }
}

// Appends the line of the last record taken.
fn push_last(
    alloc: Global,
    r: u32,
    taken: &[Taken],
    form: LineForm,
    text: &mut Vec<u8>,
) -> Result<(), AllocError>
    ensures line { OnOk result (text.new.items ≡ text.old.items ++ last_line form r taken.now) }
{
    match taken.last() {
        Some(found) => push_take(alloc, text, form, r, found),
        None => Ok(()),
    }
}

// Appends the line of a keeper's turn.
fn push_keeper(r: u32, done: TurnDone, form: LineForm, text: &mut Vec<u8>) -> Result<(), AllocError>
    ensures line { OnOk result (text.new.items ≡ text.old.items ++ keeper_text form r done) }
{
    match done {
        TurnDone::Chapter(number) => push_chapter(text, form, r, number),
        _ => Ok(()),
    }
}

// Returns the lines of the workers and the rings.
fn ends_of(alloc: Global, world: &World<'_>, form: LineForm) -> Result<Vec<u8>, AllocError>
    requires workers { length world.now.machines ≤ 256 }
    requires rings { length world.now.rings ≤ 16 }
    ensures lines { IfOk result (λ ends. ends.items ≡ world_text form world.now) }
{
    let mut ends = Vec::new(alloc);
    push_workers(world, form, &mut ends)?;
    push_rings(world, form, &mut ends)?;
    Ok(ends)
}

// Appends the drawings of the rings.
fn push_drawings(world: &World<'_>, form: LineForm, text: &mut Vec<u8>) -> Result<(), AllocError>
    requires few { length world.now.rings ≤ 16 }
    ensures lines { OnOk result (text.new.items ≡ text.old.items ++ lines_below (drawing_of form world.now) (length world.now.rings)) }
{
    for r in 0..16 {
        if !world.has(Actor::Consumer(r)) {
            return Ok(());
        }
        push_ring_drawing(world, r, form, text)?;
    }
    Ok(())
}

// Appends the drawing of a ring.
fn push_ring_drawing(
    world: &World<'_>,
    r: u32,
    form: LineForm,
    text: &mut Vec<u8>,
) -> Result<(), AllocError>
    requires there { IsThere world.now (Consumer r) }
    ensures line { OnOk result (text.new.items ≡ text.old.items ++ drawing_of form world.now r) }
{
    let closing = world.ring(r).chapter().closing();
    push_drawing(text, form, r, closing)
}

// Appends the lines of the workers.
fn push_workers(world: &World<'_>, form: LineForm, text: &mut Vec<u8>) -> Result<(), AllocError>
    requires workers { length world.now.machines ≤ 256 }
    ensures lines { OnOk result (text.new.items ≡ text.old.items ++ lines_below (worker_line form world.now) (length world.now.machines)) }
{
    for w in 0..256 {
        if !world.has(Actor::Worker(w)) {
            return Ok(());
        }
        push_worker(world, w, form, text)?;
    }
    Ok(())
}

// Appends the lines of the rings.
fn push_rings(world: &World<'_>, form: LineForm, text: &mut Vec<u8>) -> Result<(), AllocError>
    requires rings { length world.now.rings ≤ 16 }
    ensures lines { OnOk result (text.new.items ≡ text.old.items ++ lines_below (ring_end_of form world.now) (length world.now.rings)) }
{
    for r in 0..16 {
        if !world.has(Actor::Consumer(r)) {
            return Ok(());
        }
        push_ring_end(world, r, form, text)?;
    }
    Ok(())
}

// Appends the line of a worker.
fn push_worker(
    world: &World<'_>,
    w: u32,
    form: LineForm,
    text: &mut Vec<u8>,
) -> Result<(), AllocError>
    requires there { IsThere world.now (Worker w) }
    ensures line { OnOk result (text.new.items ≡ text.old.items ++ worker_line form world.now w) }
{
    match (world.result(w), world.at(w)) {
        (Some(value), _) => push_done(text, form, w, value),
        (None, Some(unit)) => push_at(text, form, w, unit),
        (None, None) => Ok(()),
    }
}

// Appends the line of a ring.
fn push_ring_end(
    world: &World<'_>,
    r: u32,
    form: LineForm,
    text: &mut Vec<u8>,
) -> Result<(), AllocError>
    requires there { IsThere world.now (Consumer r) }
    ensures line { OnOk result (text.new.items ≡ text.old.items ++ ring_end_of form world.now r) }
{
    let ring = world.ring(r);
    let (producer, consumer) = (ring.query(PROD_POS), ring.query(CONS_POS));
    push_ring(text, form, r, producer, consumer, ring.counts())
}
