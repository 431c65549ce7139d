//! The table of clients.
ghost use Rattle.std.specs.BTreeMap as tree;
ghost use Rattle.std.specs.BTreeSet as set;
ghost use Rattle.std.specs.Prelude.{◌≡◌, ◌≢◌, ◌≤◌, ◌==◌, ◌&&◌, if◌then◌else◌, true, false, is_none, ◌↔◌, ◌++◌, ℕ, List, length, filter, Contains, IsSome, OnOk, OnErr, IfOk};
ghost use Rattle.std.specs.List.Sorted.{IsStrictlySortedBy};
ghost use Rattle.std.specs.Ordering.{nat_cmp};
ghost use Rattle.std.specs.Option.{option_map};
ghost use Rattle.hc_wire.specs.Wires.{HasWireCause};
ghost use Rattle.hc_peers.specs.Offers.{OffersSome};
ghost use Rattle.hc_peers.specs.Agreement.{IsLiveTable, IsReadySet, IsTouchedSet, settled_at};
ghost use Rattle.hc_peers.specs.Peers.{new_client, is_ready, read_to};

use crate::client::{Client, addressee};
use crate::note::report_reading;
use hc_event::{Act, Request};
use hc_head::MsgError;
use hc_text::NoMemory;
use hc_wire::{Wire, WireError};
use std::alloc::Global;
use std::collections::{BTreeMap, BTreeSet, HashMap};

/// The clients by connection, and who of them is looked at.
#[derive(Drop)]
pub struct Clients {
    alloc: Global,
    rows: HashMap<u64, Client>,
    /// The connection of each live consumer.
    live: BTreeMap<u64, u64>,
    /// Those whose next request is to be read.
    ready: BTreeSet<u64>,
    /// Those that aren't settled, and maybe others.
    touched: BTreeSet<u64>,
    /// The bytes of a head that is being written.
    text: Vec<u8>,
    ghost alive: { IsLiveTable rows live },
    ghost due: { IsReadySet rows ready },
    ghost unsettled: { IsTouchedSet rows touched },
}

/// What came of reading a client's next request.
#[derive(Drop)]
pub enum NextRequest {
    /// No client's is to be read.
    Nobody,
    /// There was no whole request, or it was refused.
    Nothing,
    /// The client at this connection asks for this.
    Asks(u64, Request),
}

impl Clients {
    ghost use Rattle.hc_peers.specs.Clients.{client_of, count_of, consumers_of, ready_of, touched_of, is_touched, connections_of, Becomes, Stays, received, HearsNext, answered_in, has_all, takes_more};
    ghost use Rattle.hc_peers.specs.Offering.{IsOffered, unsent_at};

    /// No client.
    pub fn new(alloc: Global) -> Clients
        ensures { (k : ℕ) → client_of result k ≡ None }
    {
        Clients {
            alloc,
            rows: HashMap::new(alloc),
            live: BTreeMap::new(alloc),
            ready: BTreeSet::new(alloc),
            touched: BTreeSet::new(alloc),
            text: Vec::new(alloc),
        }
    }

    /// How many there are. No more are live, and the next request of no more is to be read. Both lists
    /// ascend.
    pub fn len(&self) -> usize
        ensures count { result ≡ count_of self.now }
        ensures all { (ks : List ℕ) → IsStrictlySortedBy nat_cmp ks
            → ((k : ℕ) → Contains ks k ↔ IsSome (client_of self.now k)) → result ≡ length ks }
        ensures live { length (consumers_of self.now) ≤ result }
        ensures ready { length (ready_of self.now) ≤ result }
        ensures live_order { IsStrictlySortedBy nat_cmp (consumers_of self.now) }
        ensures ready_order { IsStrictlySortedBy nat_cmp (ready_of self.now) }
    {
        let _live = self.live.len();
        let _ready = self.ready.len();
        self.rows.len()
    }

    /// A new one comes, of which there was none at that connection.
    pub fn come(&mut self, k: u64) -> Result<(), NoMemory>
        requires { client_of self.old k ≡ None }
        ensures { OnOk result (Becomes k (Some new_client) self.old self.new) }
    {
        self.rows.insert(k, Client::new(self.alloc))?;
        Ok(())
    }

    /// Bytes came of a connection. Of one that is no client's they are dropped.
    pub fn receive(&mut self, k: u64, bytes: &[u8]) -> Result<(), NoMemory>
        ensures { OnOk result (Becomes k (option_map (received bytes.now) (client_of self.old k))
            self.old self.new) }
    {
        let Some(client) = self.rows.get_mut(&k) else {
            return Ok(());
        };
        client.input.push(bytes)?;
        list_ready(&mut self.ready, k, client)
    }

    /// The client leaves.
    pub fn leave(&mut self, k: u64) -> Option<Client>
        ensures found { result ≡ client_of self.old k }
        ensures gone { Becomes k None self.old self.new }
    {
        let client = self.rows.remove(&k)?;
        self.ready.remove(&k);
        self.touched.remove(&k);
        if let Some(c) = &client.consumer {
            self.live.remove(c);
        }
        Some(client)
    }

    /// Reads the next request of the first client whose is to be read. If it asks for something, its
    /// live consumer is `c`; if it is refused, it is owed its error answer and the close.
    /// A front answers a request on condition of a copy: the cache is asked without the condition.
    pub fn hear_next(&mut self, c: u64, front: bool) -> Result<NextRequest, NoMemory>
        requires { (k : ℕ) (client : Client) → client_of self.old k ≡ Some client
            → client.consumer ≢ Some c }
        ensures { IfOk result (HearsNext c front self.old self.new) }
    {
        let Some(k) = self.ready.pop_first() else {
            return Ok(NextRequest::Nobody);
        };
        let Some(client) = self.rows.get_mut(&k) else {
            unreachable!()
        };
        match client.read(self.alloc, front) {
            Ok(None) => Ok(NextRequest::Nothing),
            Ok(Some(asking)) => {
                if let Err(refused) = list_live(&mut self.live, &mut self.touched, c, k) {
                    client.input.clear();
                    return Err(refused);
                }
                client.ask(c, asking.reply);
                Ok(NextRequest::Asks(k, asking.request))
            }
            Err(e) => match e {
                MsgError::NoMemory => Err(NoMemory),
                _ => {
                    self.touched.insert(k)?;
                    client.refuse(e)?;
                    Ok(NextRequest::Nothing)
                }
            },
        }
    }

    /// Appends the live consumers whose clients were sent all, in ascending order.
    pub fn list_taking(&self, to: &mut Vec<u64>) -> Result<(), NoMemory>
        ensures { OnOk result (to.new.items
            ≡ to.old.items ++ filter (takes_more self.now) (consumers_of self.now)) }
    {
        for (c, k) in self.live.iter() {
            if self.has_all(*k) {
                to.push(*c)?;
            }
        }
        Ok(())
    }

    /// Whether the client at `k`, which is there, was sent all. Most are settled, and aren't looked up.
    fn has_all(&self, k: u64) -> bool
        requires { IsSome (client_of self.now k) }
        ensures { result ≡ has_all (client_of self.now k) }
    {
        if !self.touched.contains(&k) {
            return true;
        }
        match self.rows.get(&k) {
            Some(client) => client.unsent.is_empty(),
            None => false,
        }
    }

    /// The client whose live consumer the act names is owed what it says.
    pub fn answer(&mut self, act: Act) -> Result<(), NoMemory>
        ensures { OnOk result ((k : ℕ) → client_of self.new k
            ≡ answered_in act (client_of self.old k)) }
    {
        let Some(c) = addressee(&act) else {
            return Ok(());
        };
        let Some(&k) = self.live.get(&c) else {
            return Ok(());
        };
        self.touched.insert(k)?;
        let Some(client) = self.rows.get_mut(&k) else {
            unreachable!()
        };
        client.answer(self.alloc, act, &mut self.text)?;
        leave_live(&mut self.live, c, client);
        list_ready(&mut self.ready, k, client)
    }

    /// Appends those that are to be looked at, in ascending order. All others are settled.
    pub fn list_touched(&self, to: &mut Vec<u64>) -> Result<(), NoMemory>
        ensures listed { OnOk result (to.new.items ≡ to.old.items ++ touched_of self.now) }
        ensures ordered { IsStrictlySortedBy nat_cmp (touched_of self.now) }
        ensures settled { (k : ℕ) → is_touched self.now k ≡ false
            → settled_at (client_of self.now k) ≡ true }
    {
        for k in self.touched.iter() {
            to.push(*k)?;
        }
        Ok(())
    }

    /// Appends the connections of all.
    pub fn list_all(&self, to: &mut Vec<u64>) -> Result<(), NoMemory>
        ensures { OnOk result (to.new.items ≡ to.old.items ++ connections_of self.now) }
    {
        for k in self.rows.keys() {
            to.push(*k)?;
        }
        Ok(())
    }

    /// The client is offered what it is owed. It is closed where it is to be, and has taken all; else
    /// the wire is told whether it is read: while it waits for nothing.
    pub fn offer<W: Wire>(&mut self, k: u64, wire: &mut W) -> Result<(), WireError>
        ensures ok { OnOk result (IsOffered W.stages W.log k self.old self.new wire.old wire.new) }
        ensures err { OnErr result (OffersSome k (unsent_at (client_of self.old k))
            (W.log wire.old) (W.log wire.new)) }
        ensures events { W.events wire.new ≡ W.events wire.old }
        ensures cause { HasWireCause (W.faults wire.old) (W.faults wire.new) result }
    {
        let Some(client) = self.rows.get_mut(&k) else {
            return Ok(());
        };
        client.unsent.offer(k, wire)?;
        if client.is_over() {
            wire.close(k);
            self.leave(k);
            return Ok(());
        }
        let Ok(()) = list_ready(&mut self.ready, k, client) else {
            return Err(WireError::NoMemory);
        };
        let on = client.is_idle();
        report_reading(k, &mut client.reading, on, wire);
        if client.is_settled() {
            self.touched.remove(&k);
        }
        Ok(())
    }
}

/// The client at `k` is listed exactly if its next request is to be read. Where memory is refused,
/// what came of it is dropped. One whose next request isn't to be read isn't listed.
fn list_ready(ready: &mut BTreeSet<u64>, k: u64, client: &mut Client) -> Result<(), NoMemory>
    requires { is_ready client.old ≡ false → set.contains nat_cmp ready.old k ≡ false }
    ensures ok { OnOk result (client.new ≡ client.old) }
    ensures others { client.new ≡ read_to client.old.reader client.new.input client.old }
    ensures listed { (j : ℕ) → set.contains nat_cmp ready.new j
        ≡ (if j == k then is_ready client.new else set.contains nat_cmp ready.old j) }
{
    if !client.is_ready() {
        return Ok(());
    }
    if let Err(refused) = ready.insert(k) {
        client.input.clear();
        return Err(refused.into());
    }
    Ok(())
}

/// The consumer isn't live any more where the client has none.
fn leave_live(live: &mut BTreeMap<u64, u64>, c: u64, client: &Client)
    ensures { (d : ℕ) → tree.get nat_cmp live.new d ≡ (if is_none client.now.consumer && d == c
        then None else tree.get nat_cmp live.old d) }
{
    if client.consumer.is_none() {
        live.remove(&c);
    }
}

/// The consumer is that of the client at `k`, which is touched.
fn list_live(
    live: &mut BTreeMap<u64, u64>,
    touched: &mut BTreeSet<u64>,
    c: u64,
    k: u64,
) -> Result<(), NoMemory>
    ensures ok { OnOk result ((d : ℕ) → tree.get nat_cmp live.new d
        ≡ (if d == c then Some k else tree.get nat_cmp live.old d)) }
    ensures err { OnErr result ((d : ℕ) → tree.get nat_cmp live.new d
        ≡ tree.get nat_cmp live.old d) }
    ensures touched { OnOk result (set.contains nat_cmp touched.new k ≡ true) }
    ensures more { (j : ℕ) → set.contains nat_cmp touched.old j ≡ true
        → set.contains nat_cmp touched.new j ≡ true }
{
    touched.insert(k)?;
    live.insert(c, k)?;
    Ok(())
}
