//! A cache that stores nothing: each consumer has an exchange of its own, of its number, and is given
//! each piece as it comes.
use hc_event::{Act, Acts, Cause, Event, Need, Request, Response, Wait};
use hc_text::{Bytes, NoMemory, read_number};
use std::alloc::Global;

/// What the cache knows of a consumer.
#[derive(Drop)]
struct Flow {
    c: u64,
    request: Request,
    is_opened: bool,
    is_wanted: bool,
    /// How many bytes are to come, once the head came.
    left: Option<u64>,
}

/// The cache.
#[derive(Drop)]
pub(crate) struct Echo {
    alloc: Global,
    flows: Vec<Flow>,
    /// What was done at the last event.
    acts: Acts,
}

impl Echo {
    /// Of nobody.
    pub(crate) fn new(alloc: Global) -> Echo {
        Echo {
            alloc,
            flows: Vec::new(alloc),
            acts: Acts::new(alloc),
        }
    }

    /// The exchanges that are wanted.
    pub(crate) fn wanted(&self) -> Result<Vec<u64>, NoMemory> {
        let mut wanted = Vec::new(self.alloc);
        for flow in &self.flows {
            if flow.is_wanted {
                wanted.push(flow.c)?;
            }
        }
        Ok(wanted)
    }

    /// What was done at the last event.
    pub(crate) fn acts(&self) -> &[Act] {
        self.acts.list()
    }

    /// Answers the event by acts.
    pub(crate) fn step(&mut self, event: &Event) -> Result<(), NoMemory> {
        self.acts.clear();
        match event {
            Event::Start { c, request } => self.start(*c, request),
            Event::Poll { c: n, .. }
            | Event::Cancel { c: n }
            | Event::Head { x: n, .. }
            | Event::Piece { x: n, .. }
            | Event::Fault { x: n }
            | Event::End { x: n } => self.step_of(*n, event),
            Event::Doom { .. } => Ok(()),
        }
    }

    fn start(&mut self, c: u64, request: &Request) -> Result<(), NoMemory> {
        self.flows.push(Flow::new(c, request)?)?;
        Ok(())
    }

    /// Answers an event of the consumer of this number, or of its exchange.
    fn step_of(&mut self, n: u64, event: &Event) -> Result<(), NoMemory> {
        for flow in &mut self.flows {
            if flow.c == n {
                return flow.step(event, &mut self.acts);
            }
        }
        Ok(())
    }
}

impl Flow {
    /// Of a consumer that starts.
    fn new(c: u64, request: &Request) -> Result<Flow, NoMemory> {
        Ok(Flow {
            c,
            request: request.copy()?,
            is_opened: false,
            is_wanted: false,
            left: None,
        })
    }

    fn step(&mut self, event: &Event, acts: &mut Acts) -> Result<(), NoMemory> {
        let c = self.c;
        self.is_wanted = false;
        match event {
            Event::Poll { .. } => self.poll(acts),
            Event::Head { response, .. } => {
                self.left = length_of(response);
                Ok(())
            }
            Event::Piece { bytes, .. } => self.piece(bytes, acts),
            Event::Cancel { .. } if self.is_opened => acts.push(Act::Close { x: c }),
            Event::Cancel { .. } => Ok(()),
            _ => {
                let cause = Cause::Net(c);
                acts.push(Act::Failed { c, cause })
            }
        }
    }

    fn poll(&mut self, acts: &mut Acts) -> Result<(), NoMemory> {
        let c = self.c;
        self.is_wanted = true;
        if !self.is_opened {
            return self.open(acts);
        }
        if self.left.is_none() {
            let wait = Wait::Head(c);
            return acts.push(Act::Pending { c, wait });
        }
        acts.push(Act::Ask { x: c })
    }

    fn open(&mut self, acts: &mut Acts) -> Result<(), NoMemory> {
        let c = self.c;
        self.is_opened = true;
        acts.push(Act::Opened {
            x: c,
            c,
            need: Need::Miss,
            request: self.request.copy()?,
        })
    }

    fn piece(&mut self, bytes: &Bytes, acts: &mut Acts) -> Result<(), NoMemory> {
        let c = self.c;
        let left = self.left.unwrap_or(0).saturating_sub(bytes.len() as u64);
        self.left = Some(left);
        acts.push(Act::Given {
            c,
            x: c,
            at: 0,
            bytes: bytes.copy()?,
        })?;
        if left == 0 {
            return acts.push(Act::Ended { c });
        }
        Ok(())
    }
}

/// How many bytes the head of an answer promises.
fn length_of(response: &Response) -> Option<u64> {
    response
        .fields
        .get(b"content-length")
        .and_then(|length| read_number(length))
}
