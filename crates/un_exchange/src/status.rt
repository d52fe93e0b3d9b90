//! The statuses of responses.
ghost use Rattle.std.specs.Prelude.{◌≡◌, IsTrue, IsSome, ◌↔◌, length, ◌≤◌};
ghost use Rattle.un_exchange.specs.Pages.{number, allow, http_body};
ghost use Rattle.un_http.specs.Response.{is_status};

/// The status of a response.
#[derive(Clone, Copy, Debug, PartialEq, Eq)]
pub enum Status {
    /// 200: the reply of an accepted command, or an answer.
    Ok,
    /// 400: the request is not read, or its head is none.
    BadRequest,
    /// 404: the path has no route.
    NotFound,
    /// 405: the route takes GET if `allow_get`, and otherwise POST.
    WrongMethod { allow_get: bool },
    /// 409: the query asks for more entries of the log than there are, or for a past version over them.
    Conflict,
    /// 411: a POST without a length.
    LengthRequired,
    /// 413: the body is too long.
    TooLarge,
    /// 422: the command or the query is refused.
    Unprocessable,
    /// 431: the head is too long, or has too many headers.
    HeadTooLarge,
    /// 500: the session can't go on.
    Denied,
    /// 501: a header that is not supported.
    NotImplemented,
    /// 503: out of memory.
    Unavailable,
}

impl Status {
    /// Its number.
    pub fn number(self) -> u16
        ensures number { result ≡ number self }
        ensures known { IsTrue (is_status (number self)) }
        ensures allow { IsSome (allow self) ↔ (number self ≡ 405) }
    {
        match self {
            Status::Ok => 200,
            Status::BadRequest => 400,
            Status::NotFound => 404,
            Status::WrongMethod { allow_get: _ } => 405,
            Status::Conflict => 409,
            Status::LengthRequired => 411,
            Status::TooLarge => 413,
            Status::Unprocessable => 422,
            Status::HeadTooLarge => 431,
            Status::Denied => 500,
            Status::NotImplemented => 501,
            Status::Unavailable => 503,
        }
    }

    /// Whether the route takes GET, if the method was wrong.
    pub fn allow_get(self) -> Option<bool>
        ensures { result ≡ allow self }
    {
        match self {
            Status::WrongMethod { allow_get } => Some(allow_get),
            _ => None,
        }
    }

    /// The body of a response that says its status alone.
    pub fn http_body(self) -> &'static [u8]
        ensures text { result.now ≡ http_body self }
        ensures short { length result.now ≤ 12 }
    {
        match self {
            Status::Ok => b"{\"http\":200}",
            Status::BadRequest => b"{\"http\":400}",
            Status::NotFound => b"{\"http\":404}",
            Status::WrongMethod { allow_get: _ } => b"{\"http\":405}",
            Status::Conflict => b"{\"http\":409}",
            Status::LengthRequired => b"{\"http\":411}",
            Status::TooLarge => b"{\"http\":413}",
            Status::Unprocessable => b"{\"http\":422}",
            Status::HeadTooLarge => b"{\"http\":431}",
            Status::Denied => b"{\"http\":500}",
            Status::NotImplemented => b"{\"http\":501}",
            Status::Unavailable => b"{\"http\":503}",
        }
    }
}
