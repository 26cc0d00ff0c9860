//! The handle by which a C caller holds an engine.

ghost use Rattle.std.specs.Prelude.{◌≡◌, IfNone, IfSome, None, Some};
ghost use Rattle.std.specs.Coded.{coded_option};
ghost use Rattle.std.specs.Option.{MatchOption};
ghost use Rattle.rb_engine.specs.contracts.engine.Engine.{the_row as engine_row};
ghost use Rattle.heskavo_c.specs.EngineHandles.{MaybeEngine};

use crate::loose::Loose;
use rb_engine::Engine;
use std::alloc::Global;
use std::marker::Model;
use std::mem::replace;
use std::ptr::null_mut;

/// A handle to an engine. It owns the engine, or it is closed and null.
#[repr(C)]
pub struct EngineHandle {
    // The engine without its type, since a C caller does not read it.
    inside: *mut u8,
    pub ghost value: { MaybeEngine } by { coded_option engine_row.coded },
}

impl Model for EngineHandle {
    ghost use Rattle.heskavo_c.specs.EngineOwnership.{held_at};

    ghost also_owns = { λ h. held_at h.inside h.value };
}

impl EngineHandle {
    /// Returns a closed handle.
    pub(crate) fn closed() -> EngineHandle
        ensures { result.value ≡ None }
    {
        EngineHandle { inside: null_mut() }
    }

    /// Returns a handle to this engine.
    pub(crate) fn of(engine: Loose<Engine, Global>) -> EngineHandle
        ensures { result.value ≡ Some engine.value }
    {
        let Loose { at, alloc: _ } = engine;
        EngineHandle {
            inside: at.cast::<u8>(),
        }
    }

    /// Returns the engine of the handle, or `None` if the handle is closed.
    pub(crate) fn into_loose(self, alloc: Global) -> Option<Loose<Engine, Global>>
        ensures { MatchOption result (self.value ≡ None) (λ l. self.value ≡ Some l.value) }
    {
        let EngineHandle { inside } = self;
        if inside.is_null() {
            None
        } else {
            Some(Loose {
                at: inside.cast::<Engine>(),
                alloc,
            })
        }
    }
}

/// Takes the engine out of its handle, which is closed afterwards. Returns `None` if the handle was closed before.
pub(crate) fn take_out(handle: &mut EngineHandle, alloc: Global) -> Option<Box<Engine>>
    ensures none { IfNone result (handle.old.value ≡ None) }
    ensures held { IfSome result (λ engine. handle.old.value ≡ Some engine.value) }
    ensures closed { handle.new.value ≡ None }
{
    match replace(handle, EngineHandle::closed()).into_loose(alloc) {
        Some(loose) => Some(loose.into_box()),
        None => None,
    }
}

/// Puts an engine into a handle. If the handle held another engine, that one is dropped.
pub(crate) fn put_back(handle: &mut EngineHandle, alloc: Global, engine: Box<Engine>)
    ensures held { handle.new.value ≡ Some engine.value }
{
    let held = EngineHandle::of(Loose::of(engine));
    if let Some(before) = replace(handle, held).into_loose(alloc) {
        drop(before.into_box());
    }
}
