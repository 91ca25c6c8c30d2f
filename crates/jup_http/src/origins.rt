//! Whose pages ask: the lines `Host` and `Origin` of a request against the origins of this server.
ghost use Rattle.std.specs.Prelude.{◌≡◌, ◌+◌, ◌≤◌, All, length, codes, count_by};
ghost use Rattle.std.specs.List.{list_all};
ghost use Rattle.httparse.specs.Spans.{IsHeaderWithin};
ghost use Rattle.websocket.specs.Headers.{fields_of, eq_ignore_case};
ghost use Rattle.jup_http.specs.Heads.{has_host, is_host_byte, is_host, is_origin, is_own_host, is_own_origin, is_named, each_value, is_own};

use httparse::spans::HeaderSpan;

/// Whether a text is an origin as a browser writes it: `http://` or `https://`, and a host with a port or without one.
pub fn is_origin(text: &[u8]) -> bool
    ensures { result ≡ is_origin text.now }
{
    if let Some(host) = text.strip_prefix(b"http://") {
        return is_host(host);
    }
    match text.strip_prefix(b"https://") {
        Some(host) => is_host(host),
        None => false,
    }
}

fn is_host(host: &[u8]) -> bool
    ensures { result ≡ is_host host.now }
{
    !host.is_empty() && are_host_bytes(host)
}

fn are_host_bytes(bytes: &[u8]) -> bool
    ensures { result ≡ list_all is_host_byte bytes.now }
{
    bytes.iter().all(|byte| is_host_byte(*byte))
}

fn is_host_byte(byte: u8) -> bool
    ensures { result ≡ is_host_byte byte }
{
    byte.is_ascii_alphanumeric() || matches!(byte, b'-' | b'.' | b':' | b'[' | b']' | b'_')
}

/// Whether a request comes from a page of this server, or from a program that is no browser. A browser sends the origin of a page
/// that asks for a WebSocket. The line `Host` has to name this server, since a page elsewhere may have a name that points here.
pub(crate) fn is_own(bytes: &[u8], spans: &[HeaderSpan], origins: &[&[u8]]) -> bool
    requires { All (IsHeaderWithin (length bytes.now)) spans.now }
    ensures { result ≡ is_own origins.now (fields_of bytes.now spans.now) }
{
    count_named(bytes, spans, b"Host") == 1
        && each_host_is_own(bytes, spans, origins)
        && each_origin_is_own(bytes, spans, origins)
}

fn count_named(bytes: &[u8], spans: &[HeaderSpan], name: &[u8]) -> usize
    requires { All (IsHeaderWithin (length bytes.now)) spans.now }
    ensures { result ≡ count_by (is_named name.now) (fields_of bytes.now spans.now) }
{
    let mut count = 0;
    for span in spans {
        if eq_ignore_case(span.name.of(bytes), name) {
            count += 1;
        }
    }
    count
}

fn each_host_is_own(bytes: &[u8], spans: &[HeaderSpan], origins: &[&[u8]]) -> bool
    requires { All (IsHeaderWithin (length bytes.now)) spans.now }
    ensures { result ≡ each_value (codes "Host") (is_own_host origins.now) (fields_of bytes.now spans.now) }
{
    for span in spans {
        if eq_ignore_case(span.name.of(bytes), b"Host")
            && !is_own_host(span.value.of(bytes), origins)
        {
            return false;
        }
    }
    true
}

fn each_origin_is_own(bytes: &[u8], spans: &[HeaderSpan], origins: &[&[u8]]) -> bool
    requires { All (IsHeaderWithin (length bytes.now)) spans.now }
    ensures { result ≡ each_value (codes "Origin") (is_own_origin origins.now) (fields_of bytes.now spans.now) }
{
    for span in spans {
        if eq_ignore_case(span.name.of(bytes), b"Origin")
            && !is_own_origin(span.value.of(bytes), origins)
        {
            return false;
        }
    }
    true
}

fn is_own_host(host: &[u8], origins: &[&[u8]]) -> bool
    ensures { result ≡ is_own_host origins.now host.now }
{
    origins.iter().any(|origin| is_host_of(host, origin))
}

fn is_own_origin(origin: &[u8], origins: &[&[u8]]) -> bool
    ensures { result ≡ is_own_origin origins.now origin.now }
{
    origins.iter().any(|own| eq_ignore_case(own, origin))
}

// Whether an origin has this host.
fn is_host_of(host: &[u8], origin: &[u8]) -> bool
    ensures { result ≡ has_host (λ own. eq_ignore_case own host.now) origin.now }
{
    if let Some(own) = origin.strip_prefix(b"http://") {
        return eq_ignore_case(own, host);
    }
    match origin.strip_prefix(b"https://") {
        Some(own) => eq_ignore_case(own, host),
        None => false,
    }
}

// Whether two texts are equal except for the case of letters.
fn eq_ignore_case(a: &[u8], b: &[u8]) -> bool
    ensures { result ≡ eq_ignore_case a.now b.now }
{
    a.eq_ignore_ascii_case(b)
}
