//! The hosts by which a server is addressed. A page of another site, open in a browser beside the server, uses its own.

ghost use Rattle.std.specs.Prelude.{◌≡◌, ◌||◌, ◌+◌, ◌≤◌, false, length, map, take, All};
ghost use Rattle.std.specs.Str.{str_eq_ignore_ascii_case};
ghost use Rattle.httparse.specs.Spans.{IsHeaderWithin, header_bytes};
ghost use Rattle.am_http.specs.Hosts.{IsScreened, all_known, behind_slash, field_of, host_name, is_fine, is_fine_field, is_known, is_one_of, is_probe, length_before, line_of_foreign, texts};
ghost use Rattle.am_http.specs.Lines.{line, line_seen};
ghost use Rattle.am_http.specs.declared.hosts.Foreign.TheVariants as names_foreign;

use crate::cause::is_head;
use crate::head::{Head, MOST_FIELDS, read_head, window};
use crate::refusal::Refusal;
use httparse::spans::{EMPTY_HEADER_SPAN, HeaderSpan};

/// The names that a server always has.
const OWN_NAMES: [&str; 2] = ["127.0.0.1", "localhost"];

/// A name in a request that isn't the server's own.
#[derive(Clone, Copy)]
pub enum Foreign {
    /// The host that the request is for.
    Host,
    /// The site of the page that asks.
    Origin,
}

/// The result of screening a request by where it comes from.
#[derive(Clone, Copy)]
pub enum Screened {
    /// The head isn't whole, and may become so.
    Open,
    /// The head names nothing foreign, or is at fault.
    Known,
    Foreign {
        what: Foreign,
        /// True if the method is HEAD.
        to_head: bool,
    },
}

impl Foreign {
    /// Returns the name of the field that holds it.
    const fn field(self) -> &'static str
        ensures { result.now ≡ field_of self }
    {
        match self {
            Foreign::Host => "host",
            Foreign::Origin => "origin",
        }
    }

    /// Returns the text of the refusal.
    const fn text(self) -> &'static str
        ensures { line_of_foreign self false ≡ line 403 result.now }
    {
        match self {
            Foreign::Host => "foreign host",
            Foreign::Origin => "foreign origin",
        }
    }

    /// Returns the line of the table with which the request is refused, given whether its method is HEAD.
    pub const fn refusal(self, to_head: bool) -> Refusal
        ensures { line_seen result ≡ line_of_foreign self to_head }
    {
        Refusal {
            status: 403,
            text: self.text(),
            allow: None,
            is_bare: to_head,
        }
    }
}

/// Returns the number of bytes before the first `mark`, or of all bytes if there is none.
fn length_before(mark: u8, text: &[u8]) -> usize
    ensures value { result ≡ length_before mark text.now }
    ensures within { result ≤ length text.now }
{
    text.iter().take_while(|byte| **byte != mark).count()
}

/// Returns the bytes of a text up to and including the first `mark`, or all of them if there is none.
fn up_to(mark: u8, text: &[u8]) -> &[u8]
    ensures { result.now ≡ take (length_before mark text.now + 1) text.now }
{
    match text.get(..length_before(mark, text) + 1) {
        Some(front) => front,
        None => text,
    }
}

/// Returns the name of a host, without its port.
fn host_name(authority: &[u8]) -> &[u8]
    ensures { result.now ≡ host_name authority.now }
{
    match authority.first() {
        Some(b'[') => up_to(b']', authority),
        _ => &authority[..length_before(b':', authority)],
    }
}

/// Returns the bytes behind the first slash.
fn behind_slash(text: &[u8]) -> &[u8]
    ensures { result.now ≡ behind_slash text.now }
{
    match text.get(length_before(b'/', text) + 1..) {
        Some(behind) => behind,
        None => &[],
    }
}

/// Returns whether two names are equal, in any ASCII case.
#[tactic(auto, using(crate::proofs::FieldLists::same_test))]
fn is_same(name: &[u8], other: &[u8]) -> bool
    ensures { result ≡ str_eq_ignore_ascii_case name.now other.now }
{
    name.eq_ignore_ascii_case(other)
}

/// Returns whether a name is one of `names`.
fn is_one_of(name: &[u8], names: &[&str]) -> bool
    ensures { result ≡ is_one_of name.now (texts names.now) }
{
    let mut found = false;
    for known in names {
        found |= is_same(name, known.as_bytes());
    }
    found
}

/// Returns whether a host is the server's own, or one of `names`.
fn is_known(authority: &[u8], names: &[&str]) -> bool
    ensures { result ≡ is_known (texts names.now) authority.now }
{
    let name = host_name(authority);
    is_one_of(name, &OWN_NAMES) || is_one_of(name, names)
}

/// Returns whether a host or an origin isn't foreign.
fn is_fine(what: Foreign, value: &[u8], names: &[&str]) -> bool
    ensures { result ≡ is_fine what (texts names.now) value.now }
{
    match what {
        Foreign::Host => is_known(value, names),
        Foreign::Origin => is_known(behind_slash(behind_slash(value)), names),
    }
}

/// Returns whether a field is another one, or names nothing foreign.
fn is_fine_field(what: Foreign, name: &[u8], value: &[u8], names: &[&str]) -> bool
    ensures { result ≡ is_fine_field what (texts names.now) (name.now, value.now) }
{
    if is_same(name, what.field().as_bytes()) {
        is_fine(what, value, names)
    } else {
        true
    }
}

/// Returns whether no field names anything foreign of this kind.
fn all_known(what: Foreign, head: &[u8], fields: &[HeaderSpan], names: &[&str]) -> bool
    requires { All (IsHeaderWithin (length head.now)) fields.now }
    ensures { result ≡ all_known what (texts names.now) (map (header_bytes head.now) fields.now) }
{
    let mut known = true;
    for field in fields {
        known &= is_fine_field(what, field.name.of(head), field.value.of(head), names);
    }
    known
}

/// Returns whether a request for this target asks if the server is up, or ready.
fn is_probe(target: &[u8]) -> bool
    ensures { result ≡ is_probe target.now }
{
    target == b"/-/healthy".as_slice() || target == b"/-/ready".as_slice()
}

/// Returns whether no field names a foreign host, or it makes no difference for this target.
fn may_ask(target: &[u8], head: &[u8], fields: &[HeaderSpan], names: &[&str]) -> bool
    requires { All (IsHeaderWithin (length head.now)) fields.now }
    ensures { result ≡ (is_probe target.now || all_known (names_foreign.Host) (texts names.now) (map (header_bytes head.now) fields.now)) }
{
    is_probe(target) || all_known(Foreign::Host, head, fields, names)
}

/// Returns what the bytes of a request so far say about where it comes from, for a server that has these names too. It takes no
/// memory.
///
/// A request that names no host, as one of HTTP/1.0 may, doesn't come from a browser. A request that asks whether the server is
/// up, or ready, may name any host, as a kubelet names an address: the answer says nothing else.
pub fn screen(bytes: &[u8], names: &[&str]) -> Screened
    // PROMISE: A request from a foreign host or origin is recognized as soon as its head is whole.
    ensures { IsScreened (texts names.now) bytes.now result }
{
    let mut fields = [EMPTY_HEADER_SPAN; MOST_FIELDS];
    let front = window(bytes);
    let head = match read_head(bytes, &mut fields) {
        Head::Open => return Screened::Open,
        Head::Refused(_) => return Screened::Known,
        Head::Whole(head) => head,
    };
    let fields = &fields[..head.headers];
    let to_head = is_head(head.method.of(front));
    if !may_ask(head.path.of(front), front, fields, names) {
        let what = Foreign::Host;
        return Screened::Foreign { what, to_head };
    }
    if !all_known(Foreign::Origin, front, fields, names) {
        let what = Foreign::Origin;
        return Screened::Foreign { what, to_head };
    }
    Screened::Known
}
