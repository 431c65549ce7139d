//! An item whose field lines are still to come.
ghost use Rattle.std.specs.Prelude.{◌≡◌, ◌+◌, ◌<◌, ◌≤◌, length, OnOk, true};
ghost use Rattle.hc_fields.specs.FieldList.{field_list_with, size_of};
ghost use Rattle.hc_sched.specs.FieldLines.{may_follow};

use hc_event::{Event, Load, Request, Response};
use hc_fields::{FieldError, Fields};
use hc_text::{Key, MethodName, NoMemory};
use std::alloc::Global;

/// What the first line of an item with fields says.
#[derive(Drop)]
pub(crate) enum Opening {
    Start {
        c: u64,
        method: MethodName,
        key: Key,
        load: Load,
    },
    Head {
        x: u64,
        status: u16,
    },
}

impl Opening {
    ghost use Rattle.hc_sched.specs.Reading.{event_of};

    /// The event of the item, with these fields.
    pub(crate) fn event(self, fields: Fields) -> Event
        ensures { result ≡ event_of self fields }
    {
        match self {
            Opening::Start {
                c,
                method,
                key,
                load,
            } => Event::Start {
                c,
                request: Request {
                    method,
                    key,
                    load,
                    fields,
                },
            },
            Opening::Head { x, status } => Event::Head {
                x,
                response: Response { status, fields },
            },
        }
    }
}

/// An item whose field lines are still to come.
#[derive(Drop)]
pub(crate) struct Begun {
    pub(crate) opening: Opening,
    /// The fields so far.
    pub(crate) fields: Fields,
    /// How many field lines are to come, at least one.
    pub(crate) missing: u64,
    /// How many bytes the lines so far have, with their line feeds.
    pub(crate) bytes: usize,
}

/// The field, which may follow these, is added to them.
pub(crate) fn add_field(fields: &mut Fields, name: &[u8], value: &[u8]) -> Result<(), NoMemory>
    requires follows { may_follow fields.old (name.now, value.now) ≡ true }
    requires few { length fields.old < 64 }
    ensures ok { OnOk result (fields.new ≡ field_list_with name.now value.now fields.old) }
    ensures count { OnOk result (length fields.new ≡ length fields.old + 1) }
    ensures size { OnOk result (size_of fields.new
        ≡ size_of fields.old + (length name.now + length value.now)) }
    ensures small { OnOk result (size_of fields.new ≤ 32768) }
{
    match fields.append_checked(name, value) {
        Ok(()) => Ok(()),
        Err(e) => match e {
            FieldError::NoMemory => Err(NoMemory),
            _ => unreachable!(),
        },
    }
}
