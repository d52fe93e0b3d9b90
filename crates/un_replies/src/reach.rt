//! Replies that may tell a whole network: what a trace reaches, the loops, and what an isolation cuts off.
//!
//! Their text is appended as it is made. To write each of their many numbers as a token first took several times as long.
ghost use Rattle.std.specs.Prelude.{◌≡◌, [], ◌∷◌, ◌++◌, codes, nat_lt, false, OnOk};
ghost use Rattle.serde_json.specs.Data.{Data};
ghost use Rattle.serde_json.specs.Written.{compact_text, comma_if, items_text};
ghost use Rattle.un_ask.specs.declared.reply.Reply.TheVariants as reply;
ghost use Rattle.un_replies.specs.Replies.{reply_value, result_value};
ghost use Rattle.un_values.specs.Values.{count, items_of, list, tuple};

use itoa::Buffer;
use std::alloc::AllocError;
use un_ask::results::{Parts, Segments};
use un_ask::{Part, ResultReply, Segment};
use un_defs::Port;
use un_defs::port::Ports;

/// A value of which a reply may tell many.
trait ToText {
    ghost use Rattle.serde_json.specs.Data.{Data};
    ghost use Rattle.serde_json.specs.Written.{compact_text};

    ghost text_value: { Self → Data };

    /// Appends the value. If memory runs out, part of it may be missing.
    fn add(&self, out: &mut Vec<u8>) -> Result<(), AllocError>
        ensures { OnOk result (out.new.items ≡ out.old.items ++ compact_text (text_value self.now)) };
}

fn add_text(text: &[u8], out: &mut Vec<u8>) -> Result<(), AllocError>
    ensures { OnOk result (out.new.items ≡ out.old.items ++ text.now) }
{
    out.extend_from_slice(text)
}

// One byte, which needs no call of a function that copies.
#[inline(always)]
fn add_byte(byte: u8, out: &mut Vec<u8>) -> Result<(), AllocError>
    ensures { OnOk result (out.new.items ≡ out.old.items ++ byte ∷ []) }
{
    out.push(byte)?;
    Ok(())
}

// A number of any length.
#[inline(never)]
fn add_digits(number: u64, out: &mut Vec<u8>) -> Result<(), AllocError>
    ensures { OnOk result (out.new.items ≡ out.old.items ++ compact_text (count number)) }
{
    let mut buffer = Buffer::new();
    add_text(buffer.format(number).as_bytes(), out)
}

// A number. Nearly all numbers of ports have one digit, which is one byte.
#[inline(always)]
#[tactic(auto, using(crate::proofs::Steps::one_digit))]
fn add_number(number: u64, out: &mut Vec<u8>) -> Result<(), AllocError>
    ensures { OnOk result (out.new.items ≡ out.old.items ++ compact_text (count number)) }
{
    if number < 10 {
        return add_byte(b'0' + number as u8, out);
    }
    add_digits(number, out)
}

// Two numbers in brackets.
#[tactic(auto, using(crate::proofs::Steps::pair_steps))]
fn add_pair(first: u64, second: u64, out: &mut Vec<u8>) -> Result<(), AllocError>
    ensures { OnOk result (out.new.items
        ≡ out.old.items ++ compact_text (tuple (count first ∷ count second ∷ []))) }
{
    add_byte(b'[', out)?;
    add_number(first, out)?;
    add_byte(b',', out)?;
    add_number(second, out)?;
    add_byte(b']', out)
}

// The comma before each element of a list except the first.
#[inline(always)]
fn add_comma(place: usize, out: &mut Vec<u8>) -> Result<(), AllocError>
    ensures { OnOk result (out.new.items ≡ out.old.items ++ comma_if (nat_lt 0 place)) }
{
    if place > 0 {
        add_byte(b',', out)?;
    }
    Ok(())
}

// The elements of a list.
#[tactic(auto, using(crate::proofs::Steps::added_one, crate::proofs::Steps::printed_all))]
fn add_items<T: ToText>(values: &[T], out: &mut Vec<u8>) -> Result<(), AllocError>
    ensures { OnOk result (out.new.items ++ codes "]"
        ≡ out.old.items ++ items_text false (items_of T.text_value values.now)) }
{
    for (place, value) in values.iter().enumerate() {
        add_comma(place, out)?;
        value.add(out)?;
    }
    Ok(())
}

#[tactic(auto, using(crate::proofs::Steps::put_list))]
fn add_list<T: ToText>(values: &[T], out: &mut Vec<u8>) -> Result<(), AllocError>
    ensures { OnOk result (out.new.items ≡ out.old.items ++ compact_text (list T.text_value values.now)) }
{
    add_byte(b'[', out)?;
    add_items(values, out)?;
    add_byte(b']', out)
}

impl ToText for u64 {
    ghost use Rattle.un_values.specs.Values.{count};

    ghost text_value = { count };

    fn add(&self, out: &mut Vec<u8>) -> Result<(), AllocError> {
        add_number(*self, out)
    }
}

impl ToText for u8 {
    ghost use Rattle.un_values.specs.Values.{count};

    ghost text_value = { count };

    fn add(&self, out: &mut Vec<u8>) -> Result<(), AllocError> {
        add_number(u64::from(*self), out)
    }
}

impl ToText for Port {
    ghost use Rattle.un_replies.specs.Replies.{port};

    ghost text_value = { port };

    fn add(&self, out: &mut Vec<u8>) -> Result<(), AllocError> {
        add_pair(self.feature, u64::from(self.number), out)
    }
}

impl ToText for Segment {
    ghost use Rattle.un_replies.specs.Replies.{segment};

    ghost text_value = { segment };

    fn add(&self, out: &mut Vec<u8>) -> Result<(), AllocError> {
        add_pair(self.line, u64::from(self.index), out)
    }
}

// A feature with the numbers of its reached ports.
impl ToText for Part {
    ghost use Rattle.un_replies.specs.Replies.{part};

    ghost text_value = { part };

    #[tactic(auto, using(crate::proofs::Steps::pair_steps))]
    fn add(&self, out: &mut Vec<u8>) -> Result<(), AllocError> {
        add_byte(b'[', out)?;
        add_number(self.feature, out)?;
        add_byte(b',', out)?;
        add_list(self.numbers.as_slice(), out)?;
        add_byte(b']', out)
    }
}

// The value of a function.
impl ToText for Option<i128> {
    ghost use Rattle.un_replies.specs.Replies.{total};

    ghost text_value = { total };

    #[tactic(auto, using(crate::proofs::Shows::whole_printed), unfolding(serde_json::proofs::OnLiterals::serde_json_on_literals))]
    fn add(&self, out: &mut Vec<u8>) -> Result<(), AllocError> {
        match self {
            Some(value) => {
                let mut buffer = Buffer::new();
                add_text(buffer.format(*value).as_bytes(), out)
            }
            None => add_text(b"null", out),
        }
    }
}

/// Appends the result of a trace.
pub(crate) fn add_result(
    traced: &ResultReply,
    version: u64,
    out: &mut Vec<u8>,
) -> Result<(), AllocError>
    ensures { OnOk result (out.new.items ≡ out.old.items ++ compact_text (result_value traced.now version)) }
{
    add_text(b"{\"containers\":", out)?;
    add_list(traced.containers.as_slice(), out)?;
    add_text(b",\"content\":", out)?;
    add_list(traced.content.as_slice(), out)?;
    add_text(b",\"features\":", out)?;
    add_list(traced.features.as_slice(), out)?;
    add_text(b",\"functions\":", out)?;
    add_list(traced.functions.as_slice(), out)?;
    add_text(b",\"ok\":\"", out)?;
    add_text(traced.kind.text().as_bytes(), out)?;
    add_text(b"\",\"structures\":", out)?;
    add_list(traced.structures.as_slice(), out)?;
    add_text(b",\"version\":", out)?;
    add_number(version, out)?;
    add_text(b"}", out)
}

/// Appends the segments on loops.
pub(crate) fn add_loops(
    segments: &Segments,
    version: u64,
    out: &mut Vec<u8>,
) -> Result<(), AllocError>
    ensures { OnOk result (out.new.items
        ≡ out.old.items ++ compact_text (reply_value (reply.Loops segments.now version))) }
{
    add_text(b"{\"ok\":\"loops\",\"segments\":", out)?;
    add_list(segments.as_slice(), out)?;
    add_text(b",\"version\":", out)?;
    add_number(version, out)?;
    add_text(b"}", out)
}

/// Appends the ports to shut for an isolation, and the features that it cuts off.
pub(crate) fn add_isolation(
    borders: &Ports,
    features: &Parts,
    version: u64,
    out: &mut Vec<u8>,
) -> Result<(), AllocError>
    ensures { OnOk result (out.new.items
        ≡ out.old.items ++ compact_text (reply_value (reply.Isolation borders.now features.now version))) }
{
    add_text(b"{\"borders\":", out)?;
    add_list(borders.as_slice(), out)?;
    add_text(b",\"features\":", out)?;
    add_list(features.as_slice(), out)?;
    add_text(b",\"ok\":\"isolation\",\"version\":", out)?;
    add_number(version, out)?;
    add_text(b"}", out)
}
