//! Texts and numbers, appended to what is already printed, where there is room.
ghost use Rattle.std.specs.Prelude.{◌≡◌, ℕ, ◌+◌, ◌*◌, ◌≤◌, List, [], ◌∷◌, ◌++◌, codes, decimal, length, nat_lt, false, vec_len, vec_capacity};
ghost use Rattle.serde_json.specs.Written.{compact_text, comma_if, items_text};
ghost use Rattle.json.specs.Print.{escape, quoted};
ghost use Rattle.un_schema.specs.Names.{IsName};
ghost use Rattle.un_values.specs.Values.{count, counts, items_of, tuple, whole};
ghost use Rattle.un_replies.specs.Refusals.{placed};

use itoa::Buffer;
use un_geom::Point;
use un_schema::Name;

/// Puts a text.
pub(crate) fn put(out: &mut Vec<u8>, text: &[u8])
    requires { vec_len out.old + length text.now ≤ vec_capacity out.old }
    ensures items { out.new.items ≡ out.old.items ++ text.now }
    ensures len { vec_len out.new ≡ vec_len out.old + length text.now }
    ensures capacity { vec_capacity out.old ≤ vec_capacity out.new }
{
    let _ = out.extend_from_slice(text);
}

/// Puts the digits of a number.
pub(crate) fn put_number(out: &mut Vec<u8>, number: u64)
    requires { vec_len out.old + 20 ≤ vec_capacity out.old }
    ensures items { out.new.items ≡ out.old.items ++ decimal number }
    ensures len { vec_len out.new ≤ vec_len out.old + 20 }
    ensures capacity { vec_capacity out.old ≤ vec_capacity out.new }
{
    let mut buffer = Buffer::new();
    put(out, buffer.format(number).as_bytes());
}

/// Puts a string without bytes that need escaping.
#[tactic(auto, using(crate::proofs::Plain::quoted_plain, crate::proofs::Steps::put_quoted))]
pub(crate) fn put_string(out: &mut Vec<u8>, text: &str)
    requires plain { escape text.now ≡ text.now }
    requires room { vec_len out.old + length text.now + 2 ≤ vec_capacity out.old }
    ensures items { out.new.items ≡ out.old.items ++ quoted text.now }
    ensures len { vec_len out.new ≡ vec_len out.old + length text.now + 2 }
    ensures capacity { vec_capacity out.old ≤ vec_capacity out.new }
{
    put(out, b"\"");
    put(out, text.as_bytes());
    put(out, b"\"");
}

/// Puts a name as a string.
#[tactic(auto, using(crate::proofs::Plain::name_plain))]
pub(crate) fn put_name(out: &mut Vec<u8>, name: &Name)
    requires named { IsName name.now }
    requires room { vec_len out.old + 34 ≤ vec_capacity out.old }
    ensures items { out.new.items ≡ out.old.items ++ quoted name.now }
    ensures len { vec_len out.new ≤ vec_len out.old + 34 }
    ensures capacity { vec_capacity out.old ≤ vec_capacity out.new }
{
    put_string(out, name.text());
}

// Puts the comma before each element of a list except the first.
fn put_comma(out: &mut Vec<u8>, place: usize)
    requires { vec_len out.old + 1 ≤ vec_capacity out.old }
    ensures items { out.new.items ≡ out.old.items ++ comma_if (nat_lt 0 place) }
    ensures len { vec_len out.new ≤ vec_len out.old + 1 }
    ensures capacity { vec_capacity out.old ≤ vec_capacity out.new }
{
    if place > 0 {
        put(out, b",");
    }
}

// Puts numbers with commas between them.
#[tactic(auto, using(crate::proofs::Steps::printed_one, crate::proofs::Steps::printed_all))]
fn put_elements(out: &mut Vec<u8>, numbers: &[u64])
    requires { vec_len out.old + 21 * length numbers.now ≤ vec_capacity out.old }
    ensures items { out.new.items ++ codes "]"
        ≡ out.old.items ++ items_text false (items_of count numbers.now) }
    ensures len { vec_len out.new ≤ vec_len out.old + 21 * length numbers.now }
    ensures capacity { vec_capacity out.old ≤ vec_capacity out.new }
{
    for (place, number) in numbers.iter().enumerate() {
        put_comma(out, place);
        put_number(out, *number);
    }
}

/// Puts a list of numbers.
#[tactic(auto, using(crate::proofs::Steps::put_list))]
pub(crate) fn put_counts(out: &mut Vec<u8>, numbers: &[u64])
    requires { vec_len out.old + 21 * length numbers.now + 2 ≤ vec_capacity out.old }
    ensures items { out.new.items ≡ out.old.items ++ compact_text (counts numbers.now) }
    ensures len { vec_len out.new ≤ vec_len out.old + 21 * length numbers.now + 2 }
    ensures capacity { vec_capacity out.old ≤ vec_capacity out.new }
{
    put(out, b"[");
    put_elements(out, numbers);
    put(out, b"]");
}

// Puts the digits of a whole number, with its sign.
#[tactic(auto, using(crate::proofs::Shows::whole_printed))]
fn put_whole(out: &mut Vec<u8>, number: i32)
    requires { vec_len out.old + 11 ≤ vec_capacity out.old }
    ensures items { out.new.items ≡ out.old.items ++ compact_text (whole number) }
    ensures len { vec_len out.new ≤ vec_len out.old + 11 }
    ensures capacity { vec_capacity out.old ≤ vec_capacity out.new }
{
    let mut buffer = Buffer::new();
    put(out, buffer.format(number).as_bytes());
}

// Puts a point, by its coordinates.
#[tactic(auto, unfolding(serde_json::proofs::OnLiterals::serde_json_on_literals))]
fn put_coordinates(out: &mut Vec<u8>, x: i32, y: i32, z: i32)
    requires { vec_len out.old + 37 ≤ vec_capacity out.old }
    ensures items { out.new.items ≡ out.old.items ++ compact_text (tuple (whole x ∷ whole y ∷ whole z ∷ [])) }
    ensures len { vec_len out.new ≤ vec_len out.old + 37 }
    ensures capacity { vec_capacity out.old ≤ vec_capacity out.new }
{
    put(out, b"[");
    put_whole(out, x);
    put(out, b",");
    put_whole(out, y);
    put(out, b",");
    put_whole(out, z);
    put(out, b"]");
}

/// Puts a point, or null.
#[tactic(auto, unfolding(serde_json::proofs::OnLiterals::serde_json_on_literals))]
pub(crate) fn put_place(out: &mut Vec<u8>, place: Option<Point>)
    requires { vec_len out.old + 37 ≤ vec_capacity out.old }
    ensures items { out.new.items ≡ out.old.items ++ compact_text (placed place) }
    ensures len { vec_len out.new ≤ vec_len out.old + 37 }
    ensures capacity { vec_capacity out.old ≤ vec_capacity out.new }
{
    match place {
        Some(Point { x, y, z }) => put_coordinates(out, x, y, z),
        None => put(out, b"null"),
    }
}
