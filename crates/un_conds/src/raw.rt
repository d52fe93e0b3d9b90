ghost use Rattle.std.specs.Prelude.{◌≡◌, ◌+◌, ◌<◌, ◌≤◌, IfSome, IfNone, IfOk, IsErrOf, Some, None};
ghost use Rattle.un_conds.specs.Sizes.{depth, node_count, is_small, HasSmallNumbers};
ghost use Rattle.un_conds.specs.Resolution.{numbered};
ghost use Rattle.un_conds.specs.Forms.{plain, written};

use crate::fault::CondFault;
use crate::form::Form;
use crate::names::Names;
use crate::op::Op;
use crate::text::Text;
use std::alloc::Global;

/// A condition as it is written, with attributes and categories by name.
#[derive(Drop)]
pub enum RawCond {
    /// The kind has this category.
    Has(Text),
    /// The feature has this attribute, and it compares so with the number.
    Test(Op, Text, i64),
    And(Box<RawCond>, Box<RawCond>),
    Or(Box<RawCond>, Box<RawCond>),
    Not(Box<RawCond>),
}

#[tactic(auto, using(crate::proofs::SizeLemmas::sizes))]
// The room that is left after the condition's parts; none where it is deeper than `levels` or has
// more than `room` parts. It goes no deeper than `levels`, and looks at no more parts than `room`.
fn room_after(raw: &RawCond, levels: u8, room: u8) -> Option<u8>
    ensures shallow { IfSome result (λ left. depth (written raw.now) ≤ levels) }
    ensures left { IfSome result (λ left. left + node_count (written raw.now) ≡ room) }
    ensures none { IfNone result (depth (written raw.now) ≤ levels → room < node_count (written raw.now)) }
{
    let levels = levels.checked_sub(1)?;
    let room = room.checked_sub(1)?;
    match raw {
        RawCond::Has(_) | RawCond::Test(_, _, _) => Some(room),
        RawCond::And(first, second) | RawCond::Or(first, second) => {
            let room = room_after(first, levels, room)?;
            room_after(second, levels, room)
        }
        RawCond::Not(inner) => room_after(inner, levels, room),
    }
}

/// Whether it is at most 16 deep and has at most 64 parts.
pub(crate) fn is_small(raw: &RawCond) -> bool
    ensures { result ≡ is_small (written raw.now) }
{
    room_after(raw, 16, 64).is_some()
}

/// The condition by numbers.
pub(crate) fn numbered<N: Names>(alloc: Global, raw: &RawCond, names: &N) -> Result<Form, CondFault>
    ensures ok { IfOk result (λ form.
        numbered (N.attributes names.now) (N.categories names.now) (written raw.now) ≡ Some (plain form)) }
    ensures bad { IsErrOf result CondFault.BadCondition
        → numbered (N.attributes names.now) (N.categories names.now) (written raw.now) ≡ None }
    ensures numbers { IfOk result (λ form. HasSmallNumbers (plain form)) }
{
    match raw {
        RawCond::Has(name) => match names.category(name.as_str()) {
            Some(category) => Ok(Form::Has(category)),
            None => Err(CondFault::BadCondition),
        },
        RawCond::Test(op, name, number) => match names.attribute(name.as_str()) {
            Some(attribute) => Ok(Form::Test(*op, attribute, *number)),
            None => Err(CondFault::BadCondition),
        },
        RawCond::And(first, second) => {
            let first = numbered(alloc, first, names)?;
            let second = numbered(alloc, second, names)?;
            let first = Box::new(alloc, first)?;
            let second = Box::new(alloc, second)?;
            Ok(Form::And(first, second))
        }
        RawCond::Or(first, second) => {
            let first = numbered(alloc, first, names)?;
            let second = numbered(alloc, second, names)?;
            let first = Box::new(alloc, first)?;
            let second = Box::new(alloc, second)?;
            Ok(Form::Or(first, second))
        }
        RawCond::Not(inner) => {
            let inner = numbered(alloc, inner, names)?;
            let inner = Box::new(alloc, inner)?;
            Ok(Form::Not(inner))
        }
    }
}
