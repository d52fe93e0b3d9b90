//! Laws of the definitions: bytes have only one reading as requests, and it is found request by request.
ghost use Rattle.un_http.specs.Laws.{OneReadingLaw, NextRequestLaw, LastEndLaw};

/// The bytes of a link determine its requests, and how they end.
pub fn one_reading()
    ensures { OneReadingLaw }
{}

/// Requests are found one after another. If the bytes so far are some requests and then a rest, one more request in the
/// rest and the bytes after it is one more request of all the bytes, and the end of the rest is the end of all the bytes.
pub fn one_more()
    ensures next { NextRequestLaw }
    ensures end { LastEndLaw }
{}
