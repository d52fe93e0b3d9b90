//! How the lines of a follower are read.
//!
//! A line is read as a JSON value. An object with a member `ask` asks for the star of a point, and every other object is a page of
//! changes. Its members are looked at in byte order of their names, and the refusal names the first that is missing or has another form;
//! other members are looked for last. A part of a page, as an entry or a link, is a list of a fixed length, whose values are looked up by
//! their places.
pub(crate) mod change;
pub(crate) mod entry;
pub(crate) mod fields;
pub(crate) mod link;
