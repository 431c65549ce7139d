//! The search for the empty line that ends a head.
ghost use Rattle.std.specs.Prelude.{◌≡◌, true, length};
ghost use Rattle.hc_text.specs.Texts.{lacks};
ghost use Rattle.hc_head.specs.Scans.{scan_byte, scan_all, is_open, IsSought, IsLineEnd};

use memchr::memchr;

/// Where a search for the end of a head stands.
#[derive(Clone, Copy, Debug, PartialEq, Eq)]
pub enum Scan {
    /// There were only empty lines so far.
    Before,
    /// The same, behind the carriage return of another line.
    BeforeReturn,
    /// Within a line.
    Within,
    /// At the beginning of a line behind the first that isn't empty.
    Beginning,
    /// Behind the carriage return that such a line begins with.
    BeginningReturn,
    /// Behind the empty line.
    Ended,
}

/// What bytes come to in the search.
#[derive(Clone, Copy)]
pub enum Sought {
    /// The head ends with so many of them.
    Ends(usize),
    /// It doesn't end with them, and the search stands here.
    Open(Scan),
}

impl Scan {
    /// Whether the head has not ended.
    fn is_open(self) -> bool
        ensures { result ≡ is_open self }
    {
        !matches!(self, Scan::Ended)
    }

    /// Behind one more byte.
    fn byte(self, b: u8) -> Scan
        ensures { result ≡ scan_byte self b }
    {
        match (self, b) {
            (Scan::Ended, _) => Scan::Ended,
            (Scan::Before | Scan::BeforeReturn, b'\n') => Scan::Before,
            (Scan::Before, b'\r') => Scan::BeforeReturn,
            (Scan::Within, b'\n') => Scan::Beginning,
            (Scan::Beginning | Scan::BeginningReturn, b'\n') => Scan::Ended,
            (Scan::Beginning, b'\r') => Scan::BeginningReturn,
            _ => Scan::Within,
        }
    }

    /// Behind bytes of a line.
    fn line(self, bytes: &[u8]) -> Scan
        requires open { is_open self ≡ true }
        requires line { lacks 10 bytes.now ≡ true }
        ensures value { result ≡ scan_all self bytes.now }
        ensures open { is_open result ≡ true }
    {
        match bytes {
            [] => self,
            [b] => self.byte(*b),
            _ => Scan::Within,
        }
    }
}

/// Where the first line feed stands.
pub fn line_end(text: &[u8]) -> Option<usize>
    ensures { IsLineEnd text.now result }
{
    memchr(b'\n', text)
}

/// What the bytes come to, behind those that led here.
pub(crate) fn seek(scan: Scan, bytes: &[u8]) -> Sought
    requires { is_open scan ≡ true }
    ensures { IsSought scan bytes.now result }
{
    let mut scan = scan;
    let mut rest = bytes;
    let mut used = 0;
    while let Some(at) = line_end(rest) {
        scan = scan.line(&rest[..at]).byte(b'\n');
        used += at + 1;
        if !scan.is_open() {
            return Sought::Ends(used);
        }
        rest = &rest[at + 1..];
    }
    Sought::Open(scan.line(rest))
}
