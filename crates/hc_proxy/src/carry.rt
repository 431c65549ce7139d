//! The step *carry out*: what the acts of a turn do.
ghost use Rattle.std.specs.Prelude.{◌≡◌, ◌≢◌, ◌∷◌, ℕ, List, true, None, Some, OnOk, OnErr};
ghost use Rattle.hc_peers.specs.Upstreams.{upstream_of};
ghost use Rattle.hc_peers.specs.declared.upstream.Upstream.{Upstream};
ghost use Rattle.hc_target.specs.Targets.{is_target};
ghost use Rattle.hc_wire.specs.Events.{Unseen};
ghost use Rattle.hc_wire.specs.Logs.{Log};
ghost use Rattle.hc_proxy.specs.Keeping.{Turn, KeepsPolled};
ghost use Rattle.hc_proxy.specs.Logging.{Follows};
ghost use Rattle.hc_proxy.specs.Rows as rows;
ghost use Rattle.hc_proxy.specs.Underway.{Closes, DialsSome, Opens, KeepsUnderway, OnWire, GoesOn, IsNext, IsPolledOn};
ghost use Rattle.hc_proxy.specs.TurnSteps.{CarriedOut, CarriedSome, HasStopCause};

use crate::proxy::Proxy;
use crate::stop::Stop;
use hc_event::{Act, Acts, Request};
use hc_msg::write_request;
use hc_peers::{Upstreams, is_head};
use hc_store::Backend;
use hc_wire::Wire;
use std::alloc::Global;
use std::mem;

impl<B: Backend> Proxy<B> {
    /// Carries out the acts of the turn, in order, and closes who left and what is over.
    pub(crate) fn carry_out<W: Wire>(&mut self, wire: &mut W) -> Result<(), Stop>
        requires stands { ∥ IsPolledOn (W.log wire.old) (W.stages wire.old) self.old ∥₁ }
        ensures ok { (t : Turn) (p : rows.Proxy) (log : Log) → KeepsPolled t self.old p
            → OnWire t log (W.log wire.old) (W.stages wire.old)
            → OnOk result (CarriedOut t p log self.new (W.log wire.new) (W.stages wire.new)) }
        ensures err { (t : Turn) (p : rows.Proxy) (log : Log) → KeepsPolled t self.old p
            → OnWire t log (W.log wire.old) (W.stages wire.old)
            → OnErr result (CarriedSome t p log (W.log wire.new) (W.stages wire.new)) }
        ensures cache { self.new.cache ≡ self.old.cache }
        ensures events { W.events wire.new ≡ W.events wire.old }
        ensures cause { HasStopCause (W.faults wire.old) (W.faults wire.new) result }
    {
        let alloc = *self.round.allocator();
        let mut acts = mem::replace(&mut self.acts, Acts::new(alloc));
        for act in acts.drain() {
            self.carry_out_one(act, wire)?;
        }
        self.acts = acts;
        close_each(self.closed.as_slice(), wire);
        self.closed.clear();
        Ok(())
    }

    /// Carries out the act that comes next.
    fn carry_out_one<W: Wire>(&mut self, act: Act, wire: &mut W) -> Result<(), Stop>
        requires next { ∥ IsNext act (W.stages wire.old) self.old ∥₁ }
        ensures ok { (t : Turn) (p : rows.Proxy) (log : Log) (acts : List Act)
            → KeepsUnderway t (act ∷ acts) self.old p
            → OnWire t log (W.log wire.old) (W.stages wire.old)
            → OnOk result (GoesOn t act acts p log self.new (W.log wire.new) (W.stages wire.new)) }
        ensures err { (t : Turn) (p : rows.Proxy) (log : Log) (acts : List Act)
            → KeepsUnderway t (act ∷ acts) self.old p
            → OnWire t log (W.log wire.old) (W.stages wire.old)
            → OnErr result (CarriedSome t p log (W.log wire.new) (W.stages wire.new)) }
        ensures cache { self.new.cache ≡ self.old.cache }
        ensures events { W.events wire.new ≡ W.events wire.old }
        ensures cause { HasStopCause (W.faults wire.old) (W.faults wire.new) result }
    {
        let alloc = *self.round.allocator();
        match act {
            Act::Opened { x, request, .. } => open(&mut self.upstreams, alloc, x, &request, wire),
            Act::Ask { x } => {
                self.upstreams.ask(x)?;
                Ok(())
            }
            Act::Close { x } => {
                self.hang_up(x)?;
                Ok(())
            }
            reported => {
                self.clients.answer(reported)?;
                Ok(())
            }
        }
    }
}

/// A connection is dialled, and owed the request.
fn open<W: Wire>(
    upstreams: &mut Upstreams,
    alloc: Global,
    x: u64,
    request: &Request,
    wire: &mut W,
) -> Result<(), Stop>
    requires new { upstream_of upstreams.old x ≡ None }
    requires fresh { (y : ℕ) (upstream : Upstream) → upstream_of upstreams.old y ≡ Some upstream
        → W.stages wire.old upstream.k ≢ Unseen }
    requires target { is_target request.now.key ≡ true }
    ensures ok { OnOk result (Opens x request.now upstreams.old upstreams.new
        (W.log wire.old) (W.log wire.new) (W.stages wire.old) (W.stages wire.new)) }
    ensures err { OnErr result (DialsSome (W.log wire.old) (W.log wire.new)
        (W.stages wire.old) (W.stages wire.new)) }
    ensures events { W.events wire.new ≡ W.events wire.old }
    ensures cause { HasStopCause (W.faults wire.old) (W.faults wire.new) result }
{
    let mut text = Vec::new(alloc);
    write_request(request, &mut text)?;
    let k = wire.dial()?;
    upstreams.open(x, k, is_head(request), text)?;
    Ok(())
}

/// These connections are closed.
pub(crate) fn close_each<W: Wire>(ks: &[u64], wire: &mut W)
    ensures closes { (log : Log) → Follows (W.log wire.old) (W.stages wire.old) log
        → Closes ks.now log (W.log wire.new) (W.stages wire.old) (W.stages wire.new) }
    ensures events { W.events wire.new ≡ W.events wire.old }
    ensures faults { W.faults wire.new ≡ W.faults wire.old }
{
    for k in ks.iter() {
        wire.close(*k);
    }
}
