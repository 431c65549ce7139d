//! Heads that are read again and again, each in two spellings, so that none is read once for all.

/// A request and an answer as a proxy sees them.
pub(crate) const SHORT_REQUESTS: [&str; 2] = [
    "GET /x HTTP/1.1\r\nHost: a.test\r\nUser-Agent: b\r\nAccept: */*\r\nAccept-Encoding: gzip, br\r\nConnection: keep-alive\r\n\r\n",
    "GET /y HTTP/1.1\r\nHost: b.test\r\nUser-Agent: c\r\nAccept: */*\r\nAccept-Encoding: gzip, br\r\nConnection: keep-alive\r\n\r\n",
];

pub(crate) const SHORT_ANSWERS: [&str; 2] = [
    "HTTP/1.1 200 OK\r\nContent-Type: text/plain\r\nContent-Length: 2\r\nCache-Control: max-age=60\r\nConnection: close\r\n\r\n",
    "HTTP/1.1 404 No\r\nContent-Type: text/plain\r\nContent-Length: 3\r\nCache-Control: max-age=90\r\nConnection: close\r\n\r\n",
];

/// The same with 12 fields, as a browser and a server of files send them.
pub(crate) const LONG_REQUESTS: [&str; 2] = [
    "GET /static/app.js?v=12 HTTP/1.1\r\nHost: www.example.test\r\nUser-Agent: Mozilla/5.0 (X11; Linux x86_64; rv:128.0) Gecko/20100101 Firefox/128.0\r\nAccept: */*\r\nAccept-Language: en-US,en;q=0.5\r\nAccept-Encoding: gzip, deflate\r\nReferer: http://www.example.test/\r\nCookie: session=0123456789abcdef; theme=dark\r\nConnection: keep-alive\r\nSec-Fetch-Dest: script\r\nSec-Fetch-Mode: no-cors\r\nSec-Fetch-Site: same-origin\r\nPriority: u=2\r\n\r\n",
    "GET /static/app.css?v=9 HTTP/1.1\r\nHost: www.example.test\r\nUser-Agent: Mozilla/5.0 (X11; Linux x86_64; rv:128.0) Gecko/20100101 Firefox/128.0\r\nAccept: */*\r\nAccept-Language: en-US,en;q=0.5\r\nAccept-Encoding: gzip, deflate\r\nReferer: http://www.example.test/\r\nCookie: session=0123456789abcdef; theme=dark\r\nConnection: keep-alive\r\nSec-Fetch-Dest: style\r\nSec-Fetch-Mode: no-cors\r\nSec-Fetch-Site: same-origin\r\nPriority: u=2\r\n\r\n",
];

pub(crate) const LONG_ANSWERS: [&str; 2] = [
    "HTTP/1.1 200 OK\r\nDate: Mon, 27 Jul 2009 12:28:53 GMT\r\nServer: Apache\r\nLast-Modified: Wed, 22 Jul 2009 19:15:56 GMT\r\nETag: \"34aa387-d-1568eb00\"\r\nAccept-Ranges: bytes\r\nContent-Length: 51\r\nVary: Accept-Encoding\r\nContent-Type: text/plain\r\nCache-Control: public, max-age=3600\r\nAge: 12\r\nX-Request-Id: 0123456789abcdef\r\nConnection: close\r\n\r\n",
    "HTTP/1.1 200 OK\r\nDate: Mon, 27 Jul 2009 12:28:54 GMT\r\nServer: Apache\r\nLast-Modified: Wed, 22 Jul 2009 19:15:57 GMT\r\nETag: \"34aa388-d-1568eb00\"\r\nAccept-Ranges: bytes\r\nContent-Length: 52\r\nVary: Accept-Encoding\r\nContent-Type: text/plain\r\nCache-Control: public, max-age=3601\r\nAge: 13\r\nX-Request-Id: 0123456789abcdee\r\nConnection: close\r\n\r\n",
];

/// The head of an answer in chunks.
pub(crate) const CHUNKED: &str = "HTTP/1.1 200 OK\r\nTransfer-Encoding: chunked\r\n\r\n";
