//! The statuses of refusals.

ghost use Rattle.std.specs.Prelude.{◌≡◌};
ghost use Rattle.http_head.specs.Responses.{status_lines};

/// The status of a refusal (RFC 9110, section 15).
#[derive(Clone, Copy, Drop, PartialEq, Eq)]
pub enum Status {
    /// 400
    BadRequest,
    /// 403
    Forbidden,
    /// 404
    NotFound,
    /// 405
    MethodNotAllowed,
    /// 413
    ContentTooLarge,
    /// 415
    UnsupportedMediaType,
    /// 503
    ServiceUnavailable,
}

impl Status {
    /// The status line, and after that of 405 the field `Allow`.
    pub(crate) fn lines(self) -> &'static str
        ensures { result.now ≡ status_lines self }
    {
        match self {
            Status::BadRequest => "HTTP/1.1 400 Bad Request\r\n",
            Status::Forbidden => "HTTP/1.1 403 Forbidden\r\n",
            Status::NotFound => "HTTP/1.1 404 Not Found\r\n",
            Status::MethodNotAllowed => "HTTP/1.1 405 Method Not Allowed\r\nAllow: POST\r\n",
            Status::ContentTooLarge => "HTTP/1.1 413 Content Too Large\r\n",
            Status::UnsupportedMediaType => "HTTP/1.1 415 Unsupported Media Type\r\n",
            Status::ServiceUnavailable => "HTTP/1.1 503 Service Unavailable\r\n",
        }
    }
}
