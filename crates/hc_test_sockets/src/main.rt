//! Tries wires over sockets of this machine: what no contract of them says.
//!
//! It exits with 0, or with 1 after it has said on standard error what was otherwise than it is to be.
#![tactic(auto)]

mod end;
mod fault;
mod held;
mod hidden;
mod patience;
mod pattern;
mod quiet;
mod refused;
mod reset;
mod rest;
mod short;
mod side;
mod transfer;
mod wires;

use fault::Fault;

fn main(rt: HostRuntime) -> Result<(), Fault> {
    transfer::move_bytes(&rt)?;
    short::talk_shortly(&rt)?;
    held::hold(&rt)?;
    rest::hold_rest(&rt)?;
    quiet::look(&rt)?;
    hidden::flood(&rt)?;
    reset::cut_unread(&rt)?;
    end::end_unread(&rt)?;
    patience::lose(&rt)?;
    refused::dial_in_vain(&rt)
}
