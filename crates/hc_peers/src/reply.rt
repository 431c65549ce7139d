//! How the answer to a request is sent.
ghost use Rattle.std.specs.Prelude.{◌≡◌, IfOk};
ghost use Rattle.hc_peers.specs.Renderings.{asking_of, is_head, is_held, end_text, form_of, closes_at_failure};

use hc_condition::{is_external, is_not_modified, unconditioned};
use hc_event::{Request, Response};
use hc_fields::has_field;
use hc_head::WireRequest;
use hc_text::NoMemory;
use std::alloc::Global;

/// How far the answer to a request is.
#[derive(Clone, Copy, Debug, PartialEq, Eq)]
pub enum Form {
    /// Its head wasn't sent.
    Headless,
    /// Its bytes are sent as they are.
    Plain,
    /// Its bytes are sent in chunks (RFC 9112 section 7.1).
    Chunks,
    /// Its head told that the client holds a copy: none of its bytes are sent.
    Held,
}

impl Form {
    /// What ends its body: the last chunk, where it is sent in chunks.
    #[tactic(auto, using(crate::proofs::Texts::says_last))]
    pub fn end(self) -> &'static [u8]
        ensures { result.now ≡ end_text self }
    {
        match self {
            Form::Chunks => b"0\r\n\r\n",
            Form::Headless | Form::Plain | Form::Held => b"",
        }
    }
}

/// The answer to a request.
#[derive(Drop)]
pub struct Reply {
    /// The client speaks HTTP/1.0.
    pub old: bool,
    /// The request is a HEAD.
    pub no_body: bool,
    /// How far it is.
    pub form: Form,
    /// The request, where it is on condition of a copy, and a front answers that.
    pub copy: Option<Request>,
}

/// What is asked of a cache for a client.
#[derive(Drop)]
pub struct Asking {
    pub request: Request,
    /// The answer to the client, of which nothing was sent.
    pub reply: Reply,
}

/// Whether the answer to the request has no body (RFC 9110 section 9.3.2).
pub fn is_head(request: &Request) -> bool
    ensures { result ≡ is_head request.now }
{
    request.method.bytes.as_slice() == b"HEAD".as_slice()
}

impl Asking {
    /// What is asked for this request. A front asks without the condition of a copy, and remembers it.
    pub(crate) fn of(alloc: Global, front: bool, wanted: WireRequest) -> Result<Asking, NoMemory>
        ensures { IfOk result (λ asking. asking ≡ asking_of front wanted) }
    {
        let old = wanted.old;
        let no_body = is_head(&wanted.request);
        let form = Form::Headless;
        if !front || !is_external(alloc, &wanted.request)? {
            return Ok(Asking {
                request: wanted.request,
                reply: Reply {
                    old,
                    no_body,
                    form,
                    copy: None,
                },
            });
        }
        Ok(Asking {
            request: unconditioned(&wanted.request)?,
            reply: Reply {
                old,
                no_body,
                form,
                copy: Some(wanted.request),
            },
        })
    }
}

impl Reply {
    /// Whether the client holds a copy of what has this head (RFC 9110 section 13.2.2).
    pub(crate) fn is_held(&self, alloc: Global, response: &Response) -> Result<bool, NoMemory>
        ensures { IfOk result (λ answer. answer
            ≡ is_held self.now.copy response.now.status response.now.fields) }
    {
        match &self.copy {
            Some(request) => is_not_modified(alloc, request, response.status, &response.fields),
            None => Ok(false),
        }
    }

    /// How its body is sent behind this head: in chunks exactly where no Content-Length tells the
    /// length, the client knows chunks, and there may be a body.
    pub fn form_of(&self, response: &Response) -> Form
        ensures { result ≡ form_of self.now response.now.status response.now.fields }
    {
        let has_none = self.no_body || response.status == 204 || response.status == 304;
        if has_field(&response.fields, b"content-length") || self.old || has_none {
            Form::Plain
        } else {
            Form::Chunks
        }
    }

    /// Whether the connection is closed behind a failure: once the head of a body was sent, the close
    /// alone tells of it.
    pub fn closes_at_failure(&self) -> bool
        ensures { result ≡ closes_at_failure self.now }
    {
        self.old || matches!(self.form, Form::Plain | Form::Chunks)
    }
}
