//! What a program keeps of a session.
ghost use Rattle.std.specs.Prelude.{◌≡◌, ◌≢◌, Option, Some, None, IfSome, IfNone, true, false};
ghost use Rattle.hc_handle.specs.Pointers.{has_session};
ghost use Rattle.hc_handle.specs.declared.session.Session.{Session};
ghost use Rattle.hc_handle.specs.declared.pointer.SessionPointer.{SessionPointer};
ghost use Rattle.std.proofs.Props.{props};

use crate::pointer::SessionPointer;
use crate::session::Session;
use std::alloc::Global;
use std::mem;

/// What a handle with a session begins with.
const MARK: u64 = 0x766f_7364_7269_0a0d;

/// A session, or none.
#[repr(C)]
#[derive(Drop)]
pub struct Handle {
    mark: u64,
    pub pointer: SessionPointer,
    ghost marked: { mark ≡ 0x766f_7364_7269_0a0d → has_session pointer.session ≡ true } by { Prim.hlevel props },
    ghost unmarked: { mark ≢ 0x766f_7364_7269_0a0d → has_session pointer.session ≡ false } by { Prim.hlevel props },
}

impl Handle {
    /// No session.
    pub(crate) fn none() -> Handle
        ensures { result.pointer.session ≡ None }
    {
        Handle {
            mark: 0,
            pointer: SessionPointer::empty(),
        }
    }

    /// This session.
    pub(crate) fn of(session: Box<Session>) -> Handle
        ensures { result.pointer.session ≡ Some session.value }
    {
        Handle {
            mark: MARK,
            pointer: SessionPointer::of(session),
        }
    }

    /// Takes the session out, if there is one. The handle is left with none.
    pub(crate) fn take(&mut self, alloc: Global) -> Option<Box<Session>>
        ensures some { IfSome result (λ s. self.old.pointer.session ≡ Some s.value) }
        ensures none { IfNone result (self.old.pointer.session ≡ None) }
        ensures left { self.new.pointer.session ≡ None }
    {
        let Handle { mark, pointer } = mem::replace(self, Handle::none());
        if mark == MARK {
            return Some(pointer.into_box(alloc));
        }
        None
    }
}
