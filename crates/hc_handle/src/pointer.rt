//! A session as its pointer.
ghost use Rattle.std.specs.Prelude.{◌≡◌, Option, Some, None, true};
ghost use Rattle.hc_handle.specs.declared.session.Session.{Session};
ghost use Rattle.hc_handle.specs.Pointers.{session_code, has_session};

use crate::session::Session;
use std::alloc::Global;
use std::marker::Model;

/// The pointer of a session, if there is one.
#[repr(C)]
#[derive(Drop)]
pub struct SessionPointer {
    at: *mut u8,
    pub ghost session: { Option Session } by { session_code },
}

impl Model for SessionPointer {
    ghost use Rattle.hc_handle.specs.Pointers.{pointer_owns};
    ghost use Rattle.hc_handle.specs.contracts.session.Session.{the_row};

    ghost also_owns = { λ s. pointer_owns the_row s.at s.session };
}

impl SessionPointer {
    /// Of no session.
    pub(crate) fn empty() -> SessionPointer
        ensures { result.session ≡ None }
    {
        SessionPointer {
            at: std::ptr::null_mut(),
        }
    }

    /// Of this session.
    pub(crate) fn of(session: Box<Session>) -> SessionPointer
        ensures { result.session ≡ Some session.value }
    {
        SessionPointer {
            at: Box::into_raw(session) as *mut u8,
        }
    }

    /// The session.
    pub(crate) fn into_box(self, alloc: Global) -> Box<Session>
        requires { has_session self.session ≡ true }
        ensures { self.session ≡ Some result.value }
    {
        let SessionPointer { at } = self;
        unsafe { Box::from_raw(alloc, at as *mut Session) }
    }
}

// The session is the pointer's own, and a session may go to another thread.
unsafe impl Send for SessionPointer {}
