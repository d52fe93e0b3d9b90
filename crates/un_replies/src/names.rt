//! What holds of each reply by its types.
ghost use Rattle.un_replies.specs.Commands.{HasRefusalName};

use un_ask::{Refusal, Reply};

/// The name that a refusal carries has the form of a name, as each name has.
pub(crate) fn names(reply: &Reply)
    ensures { HasRefusalName reply.now }
{
    match reply {
        Reply::Refused {
            refusal: Refusal::NoSuchKind { kind },
            ..
        } => {
            // For the proof alone.
            let _text = kind.text();
        }
        Reply::Refused {
            refusal: Refusal::BadAttribute { attribute },
            ..
        } => {
            // For the proof alone.
            let _text = attribute.text();
        }
        Reply::Refused {
            refusal: Refusal::Conflict { subnet, .. },
            ..
        } => {
            // For the proof alone.
            let _text = subnet.text();
        }
        _ => {}
    }
}
