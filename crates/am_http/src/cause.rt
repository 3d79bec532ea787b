//! The causes for which a request is refused, and the line of the table of statuses for each.

ghost use Rattle.std.specs.Prelude.{◌≡◌};
ghost use Rattle.http.specs.StatusCode.{IsStatusCode};
ghost use Rattle.am_http.specs.Lines.{allowed_at, bad_key, is_head, line, line_of, line_seen, told_to};

use crate::refusal::Refusal;
use am_silence_json::JsonKey;

/// A resource that a path of API v2 names.
#[derive(Clone, Copy, Debug)]
pub enum Resource {
    /// `/api/v2/silences`
    Silences,
    /// `/api/v2/silence/ID`
    Silence,
}

/// A fault that a request has before a step is made, in the order in which faults are tested.
#[derive(Clone, Copy, Debug)]
pub enum Cause {
    /// The head doesn't end in 16,384 bytes, or has over 64 fields.
    HeadTooLarge,
    /// The bytes aren't a head of HTTP/1.x.
    BadHead,
    /// There is a field `transfer-encoding`.
    TransferEncoding,
    /// The `content-length` is not 1 to 18 digits, or comes twice.
    BadContentLength,
    /// The body has over 1,048,576 bytes.
    BodyTooLarge,
    /// The input ended in the head or in the body.
    EndedEarly,
    /// The path names nothing.
    NoSuchPath,
    /// The resource that the path names doesn't have this method.
    MethodNotAllowed(Resource),
    /// A `filter` of the query isn't a filter.
    BadFilter,
    /// The body isn't a JSON object.
    BadJson,
    /// The posted silence lacks this key, or has a wrong value for it.
    BadSilence(JsonKey),
    /// Memory ran out.
    Memory,
}

/// Returns whether a method is HEAD, which is answered with the head of a reply alone.
pub fn is_head(method: &[u8]) -> bool
    ensures { result ≡ is_head method.now }
{
    method == b"HEAD".as_slice()
}

impl Refusal {
    /// Returns the line with this status and text.
    pub const fn new(status: u16, text: &'static str) -> Refusal
        requires { IsStatusCode status }
        ensures { line_seen result ≡ line status text.now }
    {
        Refusal {
            status,
            text,
            allow: None,
            is_bare: false,
        }
    }

    /// Returns the same line as it is told to a request with this method.
    pub fn told_to(self, method: &[u8]) -> Refusal
        ensures { line_seen result ≡ told_to method.now (line_seen self) }
    {
        Refusal {
            status: self.status,
            text: self.text,
            allow: self.allow,
            is_bare: is_head(method),
        }
    }
}

impl Resource {
    /// Returns the methods of the resource, as a field `allow` names them.
    pub const fn allowed(self) -> &'static str
        ensures { result.now ≡ allowed_at self }
    {
        match self {
            Resource::Silences => "GET, POST",
            Resource::Silence => "GET, DELETE",
        }
    }
}

/// Returns the text for a key that is missing or wrong in what is posted.
const fn bad_key(key: JsonKey) -> &'static str
    ensures { result.now ≡ bad_key key }
{
    match key {
        JsonKey::Id => "bad silence: id",
        JsonKey::Matchers => "bad silence: matchers",
        JsonKey::StartsAt => "bad silence: startsAt",
        JsonKey::EndsAt => "bad silence: endsAt",
        JsonKey::CreatedBy => "bad silence: createdBy",
        JsonKey::Comment => "bad silence: comment",
    }
}

impl Cause {
    /// Returns the line of the table with which the request is refused.
    pub const fn refusal(self) -> Refusal
        ensures { line_seen result ≡ line_of self }
    {
        match self {
            Cause::HeadTooLarge => Refusal::new(431, "head too large"),
            Cause::BadHead => Refusal::new(400, "bad request head"),
            Cause::TransferEncoding => Refusal::new(501, "transfer-encoding not supported"),
            Cause::BadContentLength => Refusal::new(400, "bad content-length"),
            Cause::BodyTooLarge => Refusal::new(413, "body too large"),
            Cause::EndedEarly => Refusal::new(400, "request ended early"),
            Cause::NoSuchPath => Refusal::new(404, "no such path"),
            Cause::MethodNotAllowed(resource) => Refusal {
                status: 405,
                text: "method not allowed",
                allow: Some(resource.allowed()),
                is_bare: false,
            },
            Cause::BadFilter => Refusal::new(400, "bad filter"),
            Cause::BadJson => Refusal::new(400, "bad JSON"),
            Cause::BadSilence(key) => Refusal::new(400, bad_key(key)),
            Cause::Memory => Refusal::new(500, "out of memory"),
        }
    }

    /// Returns that line as it is told to a request with this method.
    pub fn refusal_to(self, method: &str) -> Refusal
        ensures { line_seen result ≡ told_to method.now (line_of self) }
    {
        self.refusal().told_to(method.as_bytes())
    }
}

impl From<Cause> for Refusal {
    ghost use Rattle.am_http.specs.Lines.{line_of, line_seen};
    ghost use Rattle.std.specs.Prelude.{◌≡◌};

    ghost from_gives = { λ cause refusal. line_seen refusal ≡ line_of cause };

    fn from(cause: Cause) -> Refusal {
        cause.refusal()
    }
}
