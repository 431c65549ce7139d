//! Calls of validation.
ghost use Rattle.std.specs.Prelude.{◌≡◌, [], IfOk};

use crate::error::{BenchError, expect};
use crate::rules::heads::FIELD_COUNT;
use crate::rules::two_heads::TwoHeads;
use hc_event::{Load, Request, Why};
use hc_fields::Fields;
use hc_record::StoredHead;
use hc_text::{Key, MethodName};
use hc_validate::{conditional, shown, update};
use std::alloc::Global;

/// A GET without fields.
pub(super) fn bare_request(alloc: Global) -> Result<Request, BenchError>
    ensures { IfOk result (λ request. request.fields ≡ []) }
{
    Ok(Request {
        method: MethodName {
            bytes: b"GET".to_vec(alloc)?,
        },
        key: Key {
            bytes: b"https://example.test/index.html".to_vec(alloc)?,
        },
        load: Load::Normal,
        fields: Fields::new(alloc)?,
    })
}

/// `conditional` of a stored head and a request without fields.
pub(super) fn make_conditional(
    alloc: Global,
    heads: &TwoHeads,
    times: u64,
) -> Result<(), BenchError> {
    let request = bare_request(alloc)?;
    make_often(heads, &request, times)
}

fn make_often(heads: &TwoHeads, request: &Request, times: u64) -> Result<(), BenchError>
    requires { request.now.fields ≡ [] }
{
    for round in 0..times {
        make(heads.at(round), request)?;
    }
    Ok(())
}

fn make(head: &StoredHead, request: &Request) -> Result<(), BenchError>
    requires { request.now.fields ≡ [] }
{
    let made = conditional(head, request)?;
    expect(made.load == Load::Normal)
}

/// `shown` of a stored head that is fresh.
pub(super) fn show(heads: &TwoHeads, times: u64) -> Result<(), BenchError> {
    for round in 0..times {
        show_one(heads.at(round))?;
    }
    Ok(())
}

fn show_one(head: &StoredHead) -> Result<(), BenchError> {
    let why = Why::Fresh {
        age: 100,
        lifetime: 3600,
    };
    let response = shown(head.copy()?, why, None, false)?;
    expect(response.status == 200)
}

/// `update` of the fields of a head by those of the other.
pub(super) fn update_fields(heads: &TwoHeads, times: u64) -> Result<(), BenchError> {
    for round in 0..times {
        update_by(&heads.at(round).fields, &heads.at(round / 2).fields)?;
    }
    Ok(())
}

fn update_by(stored: &Fields, from: &Fields) -> Result<(), BenchError> {
    let fields = update(stored, from)?;
    expect(fields.len() == FIELD_COUNT)
}
