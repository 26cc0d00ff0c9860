//! That a worker waits at a full ring, and for the keeper of a full chapter. A call that waits is compared with waits and
//! with calls that do not wait, by the shortest times of many, so other threads don't matter.

ghost use Rattle.std.specs.Prelude.{◌≡◌, ◌≤◌, ◌<◌, ◌+◌, true};
ghost use Rattle.rb_jobs.specs.SeatHelpers.{IsAt};

use super::expected::{same, same_of};
use super::shared::{helpers, one_seat, opened, two_seats};
use rb_interp::Helpers;
use rb_jobs::NoStock;
use rb_lend::Sheet;
use rb_shared_ring::{Seat, SharedRing, WaitBackoff};
use std::alloc::Global;
use std::process::Abort;
use std::sync::Wait;
use std::time::{Clock, Duration, Instant};

const EIGHT: [u8; 8] = [1, 2, 3, 4, 5, 6, 7, 8];

// The number of calls of a ring before a full chapter is reported.
const TRIES: u32 = 64;

// Returns the time since `start`.
fn elapsed<R: Clock + Abort>(rt: &R, start: Instant) -> Duration {
    match start.elapsed(rt) {
        Ok(time) => time,
        Err(_) => rt.panic("no clock"),
    }
}

fn now<R: Clock + Abort>(rt: &R) -> Instant {
    match Instant::now(rt) {
        Ok(now) => now,
        Err(_) => rt.panic("no clock"),
    }
}

// Returns the time that this many waits of a thread take, each twice as long as the one before, up to a limit.
fn wait_time<R: Clock + Abort>(rt: &R, count: u32) -> Duration {
    let start = now(rt);
    let mut backoff = WaitBackoff::new();
    for _ in 0..count {
        backoff.wait();
    }
    elapsed(rt, start)
}

// Returns the time that a refused reservation of eight bytes takes at ring 0.
fn refused_time<R: Clock + Abort, H: Helpers>(rt: &R, helpers: &mut H) -> Duration
    requires room { 0 < H.room_of helpers.old }
    requires ring { H.has_ring helpers.old 0 ≡ true }
    ensures room { H.room_of helpers.new + 1 ≡ H.room_of helpers.old }
    ensures rings { H.has_ring helpers.new ≡ H.has_ring helpers.old }
{
    let start = now(rt);
    let is_granted = helpers.reserve(0, 8, 0).is_some();
    let time = elapsed(rt, start);
    same(rt, &is_granted, &false);
    time
}

// Returns the time that an output of eight bytes takes at ring 1, which has room for it.
fn output_time<R: Clock + Abort, H: Helpers>(rt: &R, helpers: &mut H) -> Duration
    requires room { 0 < H.room_of helpers.old }
    requires ring { H.has_ring helpers.old 1 ≡ true }
    ensures room { H.room_of helpers.new + 1 ≡ H.room_of helpers.old }
    ensures rings { H.has_ring helpers.new ≡ H.has_ring helpers.old }
{
    let start = now(rt);
    let answer = helpers.output(1, EIGHT.as_slice(), 0);
    let time = elapsed(rt, start);
    same(rt, &answer, &0);
    time
}

// Returns the times of the shortest first wait, of the shortest output at ring 1, and of the shortest refused
// reservation at ring 0, each of this many, in nanoseconds.
fn shortest_times<R: Clock + Abort, H: Helpers>(
    rt: &R,
    helpers: &mut H,
    count: usize,
) -> (u128, u128, u128)
    requires room { count + count ≤ H.room_of helpers.old }
    requires full { H.has_ring helpers.old 0 ≡ true }
    requires other { H.has_ring helpers.old 1 ≡ true }
{
    let mut wait = Duration::MAX;
    let mut output = Duration::MAX;
    let mut refused = Duration::MAX;
    for done in 0..count {
        wait = wait.min(wait_time(rt, 1));
        output = output.min(output_time(rt, helpers));
        refused = refused.min(refused_time(rt, helpers));
    }
    (wait.as_nanos(), output.as_nanos(), refused.as_nanos())
}

// Calls the ring for a record of eight bytes. Returns whether it was granted.
fn is_granted<R: Wait + Abort>(rt: &R, alloc: Global, ring: &SharedRing, seat: &mut Seat) -> bool
    requires seat { IsAt ring.now seat.old }
    ensures seat { IsAt ring.now seat.new }
{
    let sheet = Sheet::new(alloc, 8).expect(rt, "a sheet");
    ring.reserve(rt, seat, 8, sheet).is_ok()
}

// Returns the time of 64 refused calls of the ring, without waits between them.
fn calls_time<R: Clock + Wait + Abort>(
    rt: &R,
    alloc: Global,
    ring: &SharedRing,
    seat: &mut Seat,
) -> Duration
    requires seat { IsAt ring.now seat.old }
    ensures seat { IsAt ring.now seat.new }
{
    let start = now(rt);
    for tried in 0..TRIES {
        let granted = is_granted(rt, alloc, ring, seat);
        same(rt, &granted, &false);
    }
    elapsed(rt, start)
}

// Returns the times of the shortest sequence of waits for a keeper, of the shortest 64 calls of this ring, and of the
// shortest refused reservation at ring 0 of the helpers, each of this many, in nanoseconds.
fn shortest_at_chapter<R: Clock + Wait + Abort, H: Helpers>(
    rt: &R,
    alloc: Global,
    ring: &SharedRing,
    seat: &mut Seat,
    helpers: &mut H,
    count: usize,
) -> (u128, u128, u128)
    requires room { count ≤ H.room_of helpers.old }
    requires ring { H.has_ring helpers.old 0 ≡ true }
    requires seat { IsAt ring.now seat.old }
{
    let mut waits = Duration::MAX;
    let mut calls = Duration::MAX;
    let mut refused = Duration::MAX;
    for done in 0..count {
        waits = waits.min(wait_time(rt, TRIES));
        calls = calls.min(calls_time(rt, alloc, ring, seat));
        refused = refused.min(refused_time(rt, helpers));
    }
    (waits.as_nanos(), calls.as_nanos(), refused.as_nanos())
}

// Ends the test unless ring 0 grants a record of this many bytes.
fn grant<A: Abort, H: Helpers>(rt: &A, helpers: &mut H, n: u32)
    requires room { 0 < H.room_of helpers.old }
    requires ring { H.has_ring helpers.old 0 ≡ true }
    ensures room { H.room_of helpers.new + 1 ≡ H.room_of helpers.old }
    ensures ring { H.has_ring helpers.new 0 ≡ true }
    ensures other { H.has_ring helpers.new 1 ≡ H.has_ring helpers.old 1 }
{
    let is_granted = helpers.reserve(0, n, 0).is_some();
    same(rt, &is_granted, &true);
}

#[test]
// An output that gets a record does not wait.
fn a_worker_waits_at_a_full_ring(rt: HostRuntime) {
    let (full, one, _) = opened(&rt, rt.alloc(), 0, 1_024);
    let (other, two, _) = opened(&rt, rt.alloc(), 1, 1_024);
    let rings = [full, other];
    let seats = two_seats(&rt, rt.alloc(), one, two);
    let mut helpers = helpers(&rt, rt.alloc(), &rings, seats, 401, &NoStock);
    grant(&rt, &mut helpers, 4_080);
    let (wait, output, refused) = shortest_times(&rt, &mut helpers, 200);
    let waits = refused >= output.saturating_add(wait / 8);
    same_of(&rt, &waits, &true, &(wait, output, refused));
    drop(helpers);
    drop(rings);
}

#[test]
// The ring is called 64 times for each of these reservations. The other ring's chapter is full, too.
fn a_worker_waits_for_the_keeper_of_a_full_chapter(rt: HostRuntime) {
    let (ring, seat, _) = opened(&rt, rt.alloc(), 0, 8);
    let (other, mut free, _) = opened(&rt, rt.alloc(), 1, 8);
    let rings = [ring];
    let seats = one_seat(&rt, rt.alloc(), seat);
    let mut helpers = helpers(&rt, rt.alloc(), &rings, seats, 22, &NoStock);
    grant(&rt, &mut helpers, 8);
    grant(&rt, &mut helpers, 8);
    let first = is_granted(&rt, rt.alloc(), &other, &mut free);
    let second = is_granted(&rt, rt.alloc(), &other, &mut free);
    same(&rt, &(first, second), &(true, true));
    let times = shortest_at_chapter(&rt, rt.alloc(), &other, &mut free, &mut helpers, 20);
    let (waits, calls, refused) = times;
    let waited = refused >= calls.saturating_add(waits / 4);
    same_of(&rt, &waited, &true, &(waits, calls, refused));
    drop(helpers);
    drop((rings, other, free));
}
