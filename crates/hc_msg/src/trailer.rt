//! The trailer section behind a chunked body.
ghost use Rattle.std.specs.Prelude.{◌≡◌, ◌≤◌};
ghost use Rattle.hc_msg.specs.Chunks.{trailer_place, trail_on, trail, FewTrail};

/// Where a byte of the trailer section stands (RFC 9112 section 7.1.2). Its lines end with a
/// carriage return and a line feed.
#[derive(Clone, Copy, Debug, PartialEq, Eq)]
pub(crate) enum Trailer {
    /// At the beginning of a line.
    Beginning,
    /// Behind the carriage return that a line begins with.
    BeginningReturn,
    /// Within a line.
    Within,
    /// Behind a carriage return within a line.
    WithinReturn,
}

/// Where a trailer section goes on.
#[derive(Clone, Copy, Debug, PartialEq, Eq)]
pub(crate) enum Trails {
    /// So many of its bytes came.
    On(Trailer, u64),
    /// Its empty line has ended.
    Ends,
    /// Its lines have more than 32,768 bytes.
    TooLong,
}

/// The lines have at most this many bytes.
const MOST_TRAILERS: u64 = 32768;

impl Trailer {
    /// The place behind a byte that doesn't end the section.
    fn behind(self, b: u8) -> Trailer
        ensures { result ≡ trailer_place self b }
    {
        match (self, b) {
            (Trailer::Beginning, b'\r') => Trailer::BeginningReturn,
            (Trailer::WithinReturn, b'\n') => Trailer::Beginning,
            (_, b'\r') => Trailer::WithinReturn,
            _ => Trailer::Within,
        }
    }

    /// The section behind one more byte, where so many came. The empty line isn't counted.
    pub(crate) fn trail(self, count: u64, b: u8) -> Trails
        requires { count ≤ 32769 }
        ensures value { result ≡ trail self count b }
        ensures few { FewTrail result }
    {
        match (self, b) {
            (Trailer::BeginningReturn, b'\n') => Trails::Ends,
            (Trailer::Beginning, b'\r') => trail_on(self.behind(b), count + 1, MOST_TRAILERS + 1),
            _ => trail_on(self.behind(b), count + 1, MOST_TRAILERS),
        }
    }
}

/// The section goes on, where it has at most so many bytes.
fn trail_on(place: Trailer, count: u64, most: u64) -> Trails
    requires { most ≤ 32769 }
    ensures value { result ≡ trail_on place count most }
    ensures few { FewTrail result }
{
    if count <= most {
        Trails::On(place, count)
    } else {
        Trails::TooLong
    }
}
