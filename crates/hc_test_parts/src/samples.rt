//! What stores and exchanges are given.
ghost use Rattle.std.specs.Prelude.{◌≤◌, IfOk};

use hc_event::Response;
use hc_fields::Fields;
use hc_record::{Kind, StoredHead, joining_tag};
use hc_store::{Limits, Op};
use hc_test_frame::{Fault, Vector, fields_of};
use hc_text::{Key, NoMemory};
use std::alloc::Global;

/// A key, and the head of a body of six bytes.
#[derive(Drop)]
pub(crate) struct Sample {
    pub(crate) key: Key,
    pub(crate) head: StoredHead,
    ghost moments: { head.requested ≤ head.answered },
}

impl Sample {
    pub(crate) fn new(alloc: Global) -> Result<Sample, Fault> {
        let key = key(alloc)?;
        let head = head(alloc)?;
        Ok(Sample { key, head })
    }
}

#[tactic(auto, unfolding(hc_rules::specs::Statuses::brings_whole))]
fn head(alloc: Global) -> Result<StoredHead, Fault>
    ensures { IfOk result (λ head. head.requested ≤ head.answered) }
{
    let fields = fields_of(alloc, b"etag: \"a\"\naccept-ranges: none")?;
    let vary_fields = Fields::new(alloc)?;
    if vary_fields.len() > 0 || !fields.within_limits() {
        return Err(Fault::NoSuchCall);
    }
    let joining = joining_tag(alloc, &fields)?;
    Ok(StoredHead {
        kind: Kind::Growing,
        total: Some(6),
        status: 200,
        requested: 1000,
        answered: 1000,
        joining,
        vary_fields,
        fields,
    })
}

fn key(alloc: Global) -> Result<Key, NoMemory> {
    let bytes = b"http://a.test/x".to_vec(alloc)?;
    Ok(Key { bytes })
}

/// The head of an answer with this status, and with the fields that the text at this place lists.
pub(crate) fn response_of(status: u64, v: &Vector, at: usize) -> Result<Response, Fault> {
    let Ok(status) = u16::try_from(status) else {
        return Err(Fault::NoSuchCall);
    };
    let fields = fields_of(v.alloc(), v.text(at))?;
    Ok(Response { status, fields })
}

/// The limits that the first two arguments are.
pub(crate) fn limits_of(v: &Vector) -> Limits {
    Limits {
        max_entry: v.number(0),
        max_total: v.number(1),
    }
}

/// The calls that the words behind the limits name: the first of each is to fail.
pub(crate) fn fails_of(v: &Vector) -> Result<Vec<(Op, u64)>, NoMemory> {
    let mut fails = Vec::new(v.alloc());
    for at in 2..v.argument_count() {
        if let Some(op) = op_of(v.word(at)) {
            fails.push((op, 1))?;
        }
    }
    Ok(fails)
}

fn op_of(word: &str) -> Option<Op> {
    match word {
        "create" => Some(Op::Create),
        "write_record" => Some(Op::WriteRecord),
        "read_record" => Some(Op::ReadRecord),
        "put" => Some(Op::Put),
        "run_at" => Some(Op::RunAt),
        "seal" => Some(Op::Seal),
        _ => None,
    }
}
