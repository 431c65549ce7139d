//! The step *send*: what is unsent is offered, and the wire is told whose bytes may come.
ghost use Rattle.std.specs.Prelude.{◌≡◌, [], OnOk, OnErr};
ghost use Rattle.hc_core.specs.Steps.{StandsFor};
ghost use Rattle.hc_model.specs.Tables.{tables};
ghost use Rattle.hc_peers.specs.declared.clients.Clients.{Clients};
ghost use Rattle.hc_peers.specs.declared.upstreams.Upstreams.{Upstreams};
ghost use Rattle.hc_wire.specs.Logs.{Log};
ghost use Rattle.hc_proxy.specs.Keeping.{Frame, Turn, HasCache};
ghost use Rattle.hc_proxy.specs.Logging.{Follows};
ghost use Rattle.hc_proxy.specs.Resting.{KeepsCarried};
ghost use Rattle.hc_proxy.specs.Rows as rows;
ghost use Rattle.hc_proxy.specs.TurnSteps.{SentAll, SentSome, HasStopCause};
ghost use Rattle.hc_proxy.specs.Underway.{OnWire};
ghost use Rattle.hc_proxy.specs.Unsent.{HasConnections, AreSent, SendsToClients, SendsToOrigins, OthersStay};

use crate::proxy::Proxy;
use crate::stop::Stop;
use hc_core::Cache;
use hc_peers::{Clients, Upstreams};
use hc_store::Backend;
use hc_wire::Wire;

impl<B: Backend> Proxy<B> {
    /// For each connection of which something is unsent, or that may be closed or read now.
    pub(crate) fn send<W: Wire>(&mut self, wire: &mut W) -> Result<(), Stop>
        ensures ok { (t : Turn) (p : rows.Proxy) (log : Log) → KeepsCarried t self.old p
            → OnWire t log (W.log wire.old) (W.stages wire.old)
            → OnOk result (SentAll t p log self.new (W.log wire.new) (W.stages wire.new)) }
        ensures err { (t : Turn) (p : rows.Proxy) (log : Log) → KeepsCarried t self.old p
            → OnWire t log (W.log wire.old) (W.stages wire.old)
            → OnErr result (SentSome p log (W.log wire.new)) }
        ensures cache { self.new.cache ≡ self.old.cache }
        ensures moved { self.new.moved ≡ self.old.moved }
        ensures text { self.new.record ≡ self.old.record }
        ensures events { W.events wire.new ≡ W.events wire.old }
        ensures cause { HasStopCause (W.faults wire.old) (W.faults wire.new) result }
    {
        self.send_clients(wire)?;
        self.send_upstreams(wire)
    }

    /// A client is read while it waits for nothing.
    fn send_clients<W: Wire>(&mut self, wire: &mut W) -> Result<(), Stop>
        ensures ok { (p : rows.Proxy) (log : Log)
            → HasConnections p self.old.clients self.old.upstreams log
            → Follows (W.log wire.old) (W.stages wire.old) log
            → OnOk result (SendsToClients p log [] self.new.clients self.new.upstreams
            (W.log wire.new) (W.stages wire.new)) }
        ensures err { (p : rows.Proxy) (log : Log)
            → HasConnections p self.old.clients self.old.upstreams log
            → Follows (W.log wire.old) (W.stages wire.old) log
            → OnErr result (SentSome p log (W.log wire.new)) }
        ensures rest { OthersStay self.old self.new }
        ensures events { W.events wire.new ≡ W.events wire.old }
        ensures cause { HasStopCause (W.faults wire.old) (W.faults wire.new) result }
    {
        self.round.clear();
        self.clients.list_touched(&mut self.round)?;
        offer_clients(&mut self.clients, self.round.as_slice(), wire)
    }

    /// A connection to the origin is read while its exchange is wanted.
    fn send_upstreams<W: Wire>(&mut self, wire: &mut W) -> Result<(), Stop>
        ensures ok { (f : Frame) (p : rows.Proxy) (log : Log) → HasCache f self.old p
            → HasConnections p self.old.clients self.old.upstreams log
            → AreSent self.old.clients log
            → Follows (W.log wire.old) (W.stages wire.old) log
            → OnOk result (SendsToOrigins p log [] self.new.clients self.new.upstreams
            (W.log wire.new) (W.stages wire.new)) }
        ensures err { (f : Frame) (p : rows.Proxy) (log : Log) → HasCache f self.old p
            → HasConnections p self.old.clients self.old.upstreams log
            → AreSent self.old.clients log
            → Follows (W.log wire.old) (W.stages wire.old) log
            → OnErr result (SentSome p log (W.log wire.new)) }
        ensures rest { OthersStay self.old self.new }
        ensures events { W.events wire.new ≡ W.events wire.old }
        ensures cause { HasStopCause (W.faults wire.old) (W.faults wire.new) result }
    {
        self.round.clear();
        self.upstreams.list_touched(&mut self.round)?;
        offer_upstreams(
            &self.cache,
            &mut self.upstreams,
            self.round.as_slice(),
            wire,
        )
    }
}

/// These clients are offered what they are owed.
fn offer_clients<W: Wire>(clients: &mut Clients, ks: &[u64], wire: &mut W) -> Result<(), Stop>
    ensures ok { (p : rows.Proxy) (log : Log) (up : Upstreams)
        → SendsToClients p log ks.now clients.old up (W.log wire.old) (W.stages wire.old)
        → OnOk result (SendsToClients p log [] clients.new up (W.log wire.new)
        (W.stages wire.new)) }
    ensures err { (p : rows.Proxy) (log : Log) (up : Upstreams)
        → SendsToClients p log ks.now clients.old up (W.log wire.old) (W.stages wire.old)
        → OnErr result (SentSome p log (W.log wire.new)) }
    ensures events { W.events wire.new ≡ W.events wire.old }
    ensures cause { HasStopCause (W.faults wire.old) (W.faults wire.new) result }
{
    for k in ks.iter() {
        clients.offer(*k, wire)?;
    }
    Ok(())
}

/// And so are the connections of these exchanges.
fn offer_upstreams<B: Backend, W: Wire>(
    cache: &Cache<B>,
    upstreams: &mut Upstreams,
    xs: &[u64],
    wire: &mut W,
) -> Result<(), Stop>
    ensures ok { (p : rows.Proxy) (log : Log) (cl : Clients)
        → StandsFor cache.now p.setting.contents p.history
        → p.tables ≡ tables p.setting.contents p.history
        → SendsToOrigins p log xs.now cl upstreams.old (W.log wire.old) (W.stages wire.old)
        → OnOk result (SendsToOrigins p log [] cl upstreams.new (W.log wire.new)
        (W.stages wire.new)) }
    ensures err { (p : rows.Proxy) (log : Log) (cl : Clients)
        → StandsFor cache.now p.setting.contents p.history
        → p.tables ≡ tables p.setting.contents p.history
        → SendsToOrigins p log xs.now cl upstreams.old (W.log wire.old) (W.stages wire.old)
        → OnErr result (SentSome p log (W.log wire.new)) }
    ensures events { W.events wire.new ≡ W.events wire.old }
    ensures cause { HasStopCause (W.faults wire.old) (W.faults wire.new) result }
{
    for x in xs.iter() {
        let on = cache.wants(*x);
        upstreams.offer(*x, on, wire)?;
    }
    Ok(())
}
