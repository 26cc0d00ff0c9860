//! One line of a script.

ghost use Rattle.std.specs.Prelude.{◌≡◌, ◌↔◌, ◌<◌, ◌^◌, ◌∷◌, ℕ, List, IsTrue, MatchOption};
ghost use Rattle.std.specs.List.{AllPass};
ghost use Rattle.rb_world.specs.declared.world_setup.RingSetup.{RingSetup};
ghost use Rattle.rb_world.specs.OpenedWorlds.{IsRingSetup};
ghost use Rattle.rb_chapter_ring.specs.Chapters.{IsChapterRoom};
ghost use Rattle.rb_script.specs.ScriptText.{SpellsNumber, SaysRing, SaysWorker, SaysTurns, is_plain as is_plain_byte, words_of};
ghost use Rattle.rb_script.specs.inner.ScriptRead.{AreNumbersOf, IsWorkerText, IsSaid, SaysNone, IsLine, IsNoLine};

use rb_history::{is_size, is_start};
use rb_world::{Actor, RingSetup};

// The default room of a ring's chapters.
const ROOM: u64 = 65_536;

// One line of a script.
#[derive(Clone, Copy)]
pub(crate) enum ScriptLine<'a> {
    // A ring.
    Ring(RingSetup),
    // A worker: its program and its context, in hex.
    Worker(&'a str, &'a str),
    // This many turns of an actor.
    Turns(Actor, u64),
}

// Returns the line that these bytes form, or `None` if they form none or a number is out of its bounds.
pub(crate) fn line_of(bytes: &[u8]) -> Option<ScriptLine<'_>>
    ensures line { MatchOption result (IsNoLine bytes.now) (λ line. IsLine bytes.now line) }
{
    if !is_plain(bytes) {
        return None;
    }
    let Ok(text) = str::from_utf8(bytes) else {
        return None;
    };
    let Some((word, words)) = text.split_once(' ') else {
        return None;
    };
    line_with(word, words)
}

// Returns the line with this keyword and these words after it.
fn line_with<'a>(word: &str, words: &'a str) -> Option<ScriptLine<'a>>
    ensures line { MatchOption result
        (SaysNone (word.now ∷ words_of words.now)) (λ line. IsSaid (word.now ∷ words_of words.now) line) }
{
    if word == "ring" {
        let Some(setup) = ring_of(words) else {
            return None;
        };
        return Some(ScriptLine::Ring(setup));
    }
    if word == "worker" {
        let Some((program, context)) = worker_of(words) else {
            return None;
        };
        return Some(ScriptLine::Worker(program, context));
    }
    if word == "w" {
        let Some((number, count)) = turns_of(words) else {
            return None;
        };
        return Some(ScriptLine::Turns(Actor::Worker(number), count));
    }
    if word == "c" {
        let Some((number, count)) = turns_of(words) else {
            return None;
        };
        return Some(ScriptLine::Turns(Actor::Consumer(number), count));
    }
    if word == "k" {
        let Some(number) = number_of(words) else {
            return None;
        };
        return Some(ScriptLine::Turns(Actor::Keeper(number), 1));
    }
    None
}

// Whether all bytes are ASCII, with no white space other than spaces.
fn is_plain(bytes: &[u8]) -> bool
    ensures { IsTrue result ↔ AllPass is_plain_byte bytes.now }
{
    bytes.iter().all(|byte| byte.is_ascii() && (*byte == b' ' || !byte.is_ascii_whitespace()))
}

// Parses a ring: its size, its start, and optionally the room of its chapters.
fn ring_of(words: &str) -> Option<RingSetup>
    ensures ring { MatchOption result
        ((setup : RingSetup) → SaysRing (words_of words.now) setup → IsRingSetup setup → IsChapterRoom setup.room → ⊥)
        (λ setup. SaysRing (words_of words.now) setup × IsRingSetup setup × IsChapterRoom setup.room) }
{
    let Some((size, rest)) = words.split_once(' ') else {
        return None;
    };
    match rest.split_once(' ') {
        Some((start, room)) => setup_of(decimal(size), decimal(start), decimal(room)),
        None => setup_of(decimal(size), decimal(rest), Some(ROOM)),
    }
}

// Returns the ring with these numbers, if all are present and within their bounds.
fn setup_of(size: Option<u64>, start: Option<u64>, room: Option<u64>) -> Option<RingSetup>
    ensures ring { MatchOption result
        ((setup : RingSetup) → AreNumbersOf size start room setup → ⊥)
        (λ setup. AreNumbersOf size start room setup) }
{
    let (Some(size), Some(start), Some(room)) = (size, start, room) else {
        return None;
    };
    if !is_size(size) || !is_start(start) || room < 8 || room > 1_048_576 {
        return None;
    }
    Some(RingSetup {
        size,
        start,
        room: room as u32,
    })
}

// Splits a worker into its program's hex and its context's hex, which may be absent.
fn worker_of(words: &str) -> Option<(&str, &str)>
    ensures worker { MatchOption result
        ((program context : List ℕ) → SaysWorker (words_of words.now) program context → ⊥)
        (λ worker. IsWorkerText (words_of words.now) worker.0.now worker.1.now) }
{
    let Some((program, context)) = words.split_once(' ') else {
        if words.is_empty() {
            return None;
        }
        return Some((words, ""));
    };
    if program.is_empty() {
        return None;
    }
    if context.is_empty() {
        return None;
    }
    Some((program, context))
}

// Parses the number of a worker or a ring, and the number of turns (default: one).
fn turns_of(words: &str) -> Option<(u32, u64)>
    ensures turns { MatchOption result
        ((number count : ℕ) → SaysTurns (words_of words.now) number count → number < 2 ^ 32 → count < 2 ^ 64 → ⊥)
        (λ turns. SaysTurns (words_of words.now) turns.0 turns.1) }
{
    let Some((word, times)) = words.split_once(' ') else {
        let Some(number) = number_of(words) else {
            return None;
        };
        return Some((number, 1));
    };
    let (Some(number), Some(count)) = (number_of(word), decimal(times)) else {
        return None;
    };
    Some((number, count))
}

// Parses the number of a worker or a ring.
fn number_of(word: &str) -> Option<u32>
    ensures number { MatchOption result
        ((number : ℕ) → SpellsNumber word.now number → number < 2 ^ 32 → ⊥)
        (λ number. SpellsNumber word.now number) }
{
    let number = decimal(word)?;
    u32::try_from(number).ok()
}

// Parses decimal digits as a number below 2^64. `parse` alone would accept a leading plus sign.
fn decimal(text: &str) -> Option<u64>
    ensures number { MatchOption result
        ((number : ℕ) → SpellsNumber text.now number → number < 2 ^ 64 → ⊥)
        (λ number. SpellsNumber text.now number) }
{
    if text.as_bytes().first() == Some(&b'+') {
        return None;
    }
    text.parse().ok()
}
