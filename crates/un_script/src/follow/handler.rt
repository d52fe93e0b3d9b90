//! A copy as a handler of lines: the first line is read as a schema, which opens the copy, and each later line as a page or a question.
ghost use Rattle.std.specs.Prelude.{◌≡◌, None};

use crate::follow::copy::Following;
use crate::opening::{line_too_long, no_schema, print_bad_schema, schema_too_long};
use std::alloc::{AllocError, Global};
use un_lines::{Handler, Opened};
use un_schema_json::{SchemaFault, read_schema};

/// The copy, once a schema has opened it.
#[derive(Drop)]
pub struct Follow {
    following: Option<Following>,
}

impl Follow {
    /// Before the first line.
    pub fn new() -> Follow
        ensures { result.following ≡ None }
    {
        Follow { following: None }
    }
}

impl Handler for Follow {
    ghost use Rattle.un_script.specs.declared.follow.copy.Following.{Following};
    ghost use Rattle.un_script.specs.Following.{follow};
    ghost use Rattle.un_script.specs.FollowReplies.{follow_is_plain};

    ghost State = { Following };

    ghost rules = { follow };

    ghost state = { λ f. f.following };

    ghost plain = { follow_is_plain };

    fn is_open(&self) -> bool {
        self.following.is_some()
    }

    fn open(&mut self, alloc: Global, line: &[u8], out: &mut Vec<u8>) -> Opened {
        match read_schema(alloc, line) {
            Ok((schema, tiers)) => {
                self.following = Some(Following::new(schema, tiers));
                Opened::Open
            }
            Err(SchemaFault::BadSchema { place }) => {
                print_bad_schema(place, out);
                Opened::Closed
            }
            Err(SchemaFault::Memory) => Opened::Memory,
        }
    }

    fn answer(&mut self, alloc: Global, line: &[u8], out: &mut Vec<u8>) -> Result<(), AllocError> {
        match &mut self.following {
            Some(following) => following.answer(alloc, line, out),
            None => Err(AllocError),
        }
    }

    fn too_long(&self) -> &'static [u8] {
        line_too_long()
    }

    fn refusal_too_long(&self) -> &'static [u8] {
        schema_too_long()
    }

    fn refusal_missing(&self) -> &'static [u8] {
        no_schema()
    }
}
