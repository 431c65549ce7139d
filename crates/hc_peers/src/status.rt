//! Answers without a body: to requests that are refused, and where an answer failed before its head was
//! sent.
ghost use Rattle.std.specs.Prelude.{◌≡◌};
ghost use Rattle.hc_peers.specs.Renderings.{empty_answer, error_status, failure_status};

use hc_event::Cause;
use hc_head::MsgError;

/// What a client is sent whose request is refused: Bad Request, Request Header Fields Too Large (RFC
/// 6585 section 5), or Not Implemented.
pub fn error_answer(e: MsgError) -> &'static [u8]
    ensures { result.now ≡ empty_answer (error_status e) }
{
    match e {
        MsgError::HeadTooLong => b"HTTP/1.1 431 \r\ncontent-length: 0\r\n\r\n",
        MsgError::BadLength | MsgError::UnsupportedMethod => {
            b"HTTP/1.1 501 \r\ncontent-length: 0\r\n\r\n"
        }
        _ => b"HTTP/1.1 400 \r\ncontent-length: 0\r\n\r\n",
    }
}

/// What a client is sent whose answer failed before its head was sent: Gateway Timeout where only what
/// is stored was asked for (RFC 9111 section 5.2.1.7), Bad Gateway where the origin failed.
pub fn failure_answer(cause: Cause) -> &'static [u8]
    ensures { result.now ≡ empty_answer (failure_status cause) }
{
    match cause {
        Cause::Miss => b"HTTP/1.1 504 \r\ncontent-length: 0\r\n\r\n",
        Cause::Net(_) | Cause::BadHead(_) => b"HTTP/1.1 502 \r\ncontent-length: 0\r\n\r\n",
        _ => b"HTTP/1.1 500 \r\ncontent-length: 0\r\n\r\n",
    }
}
