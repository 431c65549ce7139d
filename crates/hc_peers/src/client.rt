//! Connections of clients.
ghost use Rattle.std.specs.Prelude.{◌≡◌, ◌++◌, ℕ, [], true, Option, OnOk, OnErr};
ghost use Rattle.hc_event.specs.declared.act.Act.TheVariants as act;
ghost use Rattle.hc_event.specs.declared.act.Why.{Why};
ghost use Rattle.hc_msg.specs.Writing.{chunk_text};
ghost use Rattle.hc_peers.specs.Peers.{Reads, new_client, read_to, is_idle, is_ready, is_over, is_settled, asks, refused, answered, addressee};

use crate::outbox::Outbox;
use crate::queue::Queue;
use crate::reply::{Asking, Form, Reply};
use crate::status::{error_answer, failure_answer};
use hc_condition::fields_of_304;
use hc_event::{Act, Cause, Response};
use hc_head::MsgError;
use hc_msg::{RequestReader, write_chunk_size, write_response_head};
use hc_text::{Bytes, NoMemory};
use std::alloc::Global;

/// A connection of a client.
#[derive(Drop)]
pub struct Client {
    pub reader: RequestReader,
    /// What came of it and wasn't read.
    pub input: Queue,
    /// The live consumer.
    pub consumer: Option<u64>,
    /// The answer to its last request.
    pub reply: Reply,
    /// What it is owed and hasn't taken.
    pub unsent: Outbox,
    /// It is closed once it has taken what it is owed.
    pub closing: bool,
    /// Whether the wire was told to read it.
    pub reading: bool,
}

/// The consumer that is sent something by an act.
pub fn addressee(act: &Act) -> Option<u64>
    ensures { result ≡ addressee act.now }
{
    match act {
        Act::Shown { c, .. } | Act::Given { c, .. } | Act::Ended { c } | Act::Failed { c, .. } =>
            Some(*c),
        _ => None,
    }
}

impl Client {
    /// One of which nothing came.
    pub(crate) fn new(alloc: Global) -> Client
        ensures { result ≡ new_client }
    {
        Client {
            reader: RequestReader::new(alloc),
            input: Queue::new(alloc),
            consumer: None,
            reply: Reply {
                old: false,
                no_body: false,
                form: Form::Headless,
                copy: None,
            },
            unsent: Outbox::new(alloc),
            closing: false,
            reading: true,
        }
    }

    /// Whether it waits for nothing: nobody lives, and it has taken what it is owed.
    pub(crate) fn is_idle(&self) -> bool
        ensures { result ≡ is_idle self.now }
    {
        self.consumer.is_none() && self.unsent.is_empty()
    }

    /// Whether its next request is to be read.
    pub(crate) fn is_ready(&self) -> bool
        ensures { result ≡ is_ready self.now }
    {
        self.is_idle() && !self.closing && !self.input.is_empty()
    }

    /// Whether it is to be closed now.
    pub(crate) fn is_over(&self) -> bool
        ensures { result ≡ is_over self.now }
    {
        self.closing && self.unsent.is_empty()
    }

    /// Whether nothing is to be done for it before something happens.
    pub(crate) fn is_settled(&self) -> bool
        ensures { result ≡ is_settled self.now }
    {
        self.unsent.is_empty() && !self.closing && self.reading == self.is_idle()
    }

    /// What its next request asks, of what came. After an error nothing of it is read any more.
    pub(crate) fn read(&mut self, alloc: Global, front: bool) -> Result<Option<Asking>, MsgError>
        ensures reads { Reads front self.old self.new result }
        ensures others { self.new ≡ read_to self.new.reader self.new.input self.old }
        ensures err { OnErr result (self.new.input ≡ []) }
    {
        let taken = match self.reader.take(self.input.rest()) {
            Ok(taken) => taken,
            Err(e) => {
                self.input.clear();
                return Err(e);
            }
        };
        self.input.skip(taken.used);
        let Some(wanted) = taken.got else {
            return Ok(None);
        };
        match Asking::of(alloc, front, wanted) {
            Ok(asking) => Ok(Some(asking)),
            Err(NoMemory) => {
                self.input.clear();
                Err(MsgError::NoMemory)
            }
        }
    }

    /// The consumer asks for what this is the answer to.
    pub(crate) fn ask(&mut self, c: u64, reply: Reply)
        ensures { self.new ≡ asks c reply self.old }
    {
        self.consumer = Some(c);
        self.reply = reply;
    }

    /// It is owed the error answer, and the close.
    pub(crate) fn refuse(&mut self, e: MsgError) -> Result<(), NoMemory>
        ensures ok { OnOk result (self.new ≡ refused e self.old) }
        ensures closing { self.new.closing ≡ true }
        ensures consumer { self.new.consumer ≡ self.old.consumer }
    {
        self.closing = true;
        self.unsent.push(error_answer(e))
    }

    /// It is owed what the act says.
    pub(crate) fn answer(
        &mut self,
        alloc: Global,
        act: Act,
        text: &mut Vec<u8>,
    ) -> Result<(), NoMemory>
        ensures ok { OnOk result (self.new ≡ answered act self.old) }
        ensures err { OnErr result (self.new.consumer ≡ self.old.consumer) }
    {
        match act {
            Act::Shown { status, fields, .. } => self.show(
                alloc,
                Response { status, fields },
                text,
            ),
            Act::Given { bytes, .. } => self.give(bytes, text),
            Act::Ended { .. } => self.end(),
            Act::Failed { cause, .. } => self.fail(cause),
            _ => Ok(()),
        }
    }

    /// The head of its answer: 304 where it holds a copy (RFC 9110 section 15.4.5).
    fn show(
        &mut self,
        alloc: Global,
        response: Response,
        text: &mut Vec<u8>,
    ) -> Result<(), NoMemory>
        ensures ok { (c r : ℕ) (why : Why) (lo : ℕ) (hi : Option ℕ) → OnOk result (self.new
            ≡ answered (act.Shown c r why response.status response.fields lo hi) self.old) }
        ensures err { OnErr result (self.new.consumer ≡ self.old.consumer) }
    {
        text.clear();
        if self.reply.is_held(alloc, &response)? {
            self.reply.form = Form::Held;
            let fields = fields_of_304(&response.fields)?;
            write_response_head(
                &Response {
                    status: 304,
                    fields,
                },
                false,
                text,
            )?;
        } else {
            self.reply.form = self.reply.form_of(&response);
            write_response_head(&response, self.reply.form == Form::Chunks, text)?;
        }
        self.unsent.push(text)
    }

    /// Bytes of the body, as they lie.
    fn give(&mut self, bytes: Bytes, text: &mut Vec<u8>) -> Result<(), NoMemory>
        ensures ok { (c x at : ℕ) → OnOk result
            (self.new ≡ answered (act.Given c x at bytes) self.old) }
        ensures err { OnErr result (self.new.consumer ≡ self.old.consumer) }
    {
        match self.reply.form {
            Form::Chunks => self.give_chunk(bytes, text),
            Form::Held => Ok(()),
            Form::Headless | Form::Plain => self.unsent.hand(bytes),
        }
    }

    /// Bytes of the body as a chunk (RFC 9112 section 7.1).
    fn give_chunk(&mut self, bytes: Bytes, text: &mut Vec<u8>) -> Result<(), NoMemory>
        ensures ok { OnOk result (self.new
            ≡ record self.old { unsent = self.old.unsent ++ chunk_text bytes }) }
        ensures err { OnErr result (self.new.consumer ≡ self.old.consumer) }
    {
        text.clear();
        write_chunk_size(bytes.len(), text)?;
        self.unsent.push(text)?;
        self.unsent.hand(bytes)?;
        self.unsent.push(b"\r\n")
    }

    /// The answer is whole.
    fn end(&mut self) -> Result<(), NoMemory>
        ensures ok { (c : ℕ) → OnOk result (self.new ≡ answered (act.Ended c) self.old) }
        ensures err { OnErr result (self.new.consumer ≡ self.old.consumer) }
    {
        self.unsent.push(self.reply.form.end())?;
        self.consumer = None;
        self.closing = self.closing || self.reply.old;
        Ok(())
    }

    /// The answer failed: that is told before its head was sent, and else by the close.
    fn fail(&mut self, cause: Cause) -> Result<(), NoMemory>
        ensures ok { (c : ℕ) → OnOk result (self.new ≡ answered (act.Failed c cause) self.old) }
        ensures err { OnErr result (self.new.consumer ≡ self.old.consumer) }
    {
        if self.reply.form == Form::Headless {
            self.unsent.push(failure_answer(cause))?;
        }
        self.consumer = None;
        self.closing = self.closing || self.reply.closes_at_failure();
        Ok(())
    }
}
