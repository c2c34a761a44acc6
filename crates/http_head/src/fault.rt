//! Why a request is refused before its call is read.

ghost use Rattle.std.specs.Prelude.{◌≡◌};
ghost use Rattle.http_head.specs.Faults.{fault_text, fault_status};

use crate::text::Status;
use std::error::Error;
use std::fmt;

/// Why a request is refused before its call is read.
#[derive(Clone, Copy, Debug, Drop, PartialEq, Eq)]
pub enum RequestFault {
    /// The head doesn't parse, is cut short, is over its limits,
    /// or is of another version than HTTP/1.1.
    BadHead,
    /// The target isn't `/api/v1/scheduler`.
    NoSuchPath,
    /// The method isn't POST.
    NotPost,
    /// The media type isn't `application/json`.
    WrongMedia,
    /// The body is over its limit.
    TooLong,
    /// There is more than one length field or an invalid one, or the body is cut short or its
    /// chunks don't parse.
    BadBody,
}

impl RequestFault {
    /// Its code and name.
    #[tactic(auto, unfolding(crate::specs::Faults::fault_text))]
    pub fn as_text(self) -> &'static str
        ensures { result.now ≡ fault_text self }
    {
        match self {
            RequestFault::BadHead => "H1 BadHead",
            RequestFault::NoSuchPath => "H2 NoSuchPath",
            RequestFault::NotPost => "H3 NotPost",
            RequestFault::WrongMedia => "H4 WrongMedia",
            RequestFault::TooLong => "H5 TooLong",
            RequestFault::BadBody => "H6 BadBody",
        }
    }

    /// The status that it is answered with.
    pub fn status(self) -> Status
        ensures { result ≡ fault_status self }
    {
        match self {
            RequestFault::BadHead => Status::BadRequest,
            RequestFault::NoSuchPath => Status::NotFound,
            RequestFault::NotPost => Status::MethodNotAllowed,
            RequestFault::WrongMedia => Status::UnsupportedMediaType,
            RequestFault::TooLong => Status::ContentTooLarge,
            RequestFault::BadBody => Status::BadRequest,
        }
    }
}

impl fmt::Display for RequestFault {
    fn fmt<W: fmt::Write>(&self, f: &mut fmt::Formatter<W>) -> fmt::Result {
        f.write_str(self.as_text())
    }
}

impl Error for RequestFault {}
