//! Members of objects, appended with a comma after or before them, where there is room.
ghost use Rattle.std.specs.Prelude.{◌≡◌, ◌+◌, ◌*◌, ◌≤◌, [], ◌∷◌, ◌++◌, length, vec_len, vec_capacity};
ghost use Rattle.json.specs.Print.{escape, quoted};
ghost use Rattle.serde_json.specs.Data.{string};
ghost use Rattle.un_schema.specs.Names.{IsName};
ghost use Rattle.un_values.specs.Values.{count, counts};
ghost use Rattle.un_replies.specs.Pieces.{leading, following, opening};
ghost use Rattle.un_replies.specs.Refusals.{placed};

use crate::put::{put, put_counts, put_name, put_number, put_place, put_string};
use un_geom::Point;
use un_schema::Name;

/// Puts a number and a comma after it.
#[tactic(auto, using(crate::proofs::Steps::lead_one))]
pub(crate) fn lead_count(out: &mut Vec<u8>, name: &str, number: u64)
    requires plain { escape name.now ≡ name.now }
    requires room { vec_len out.old + length name.now + 24 ≤ vec_capacity out.old }
    ensures items { out.new.items ≡ out.old.items ++ leading ((name.now, count number) ∷ []) }
    ensures len { vec_len out.new ≤ vec_len out.old + length name.now + 24 }
    ensures capacity { vec_capacity out.old ≤ vec_capacity out.new }
{
    put_string(out, name);
    put(out, b":");
    put_number(out, number);
    put(out, b",");
}

/// Puts a name and a comma after it.
#[tactic(auto, using(crate::proofs::Steps::lead_one))]
pub(crate) fn lead_name(out: &mut Vec<u8>, name: &str, value: &Name)
    requires plain { escape name.now ≡ name.now }
    requires named { IsName value.now }
    requires room { vec_len out.old + length name.now + 38 ≤ vec_capacity out.old }
    ensures items { out.new.items ≡ out.old.items ++ leading ((name.now, string value.now) ∷ []) }
    ensures len { vec_len out.new ≤ vec_len out.old + length name.now + 38 }
    ensures capacity { vec_capacity out.old ≤ vec_capacity out.new }
{
    put_string(out, name);
    put(out, b":");
    put_name(out, value);
    put(out, b",");
}

/// Puts a point, or null, and a comma after it.
#[tactic(auto, using(crate::proofs::Steps::lead_one))]
pub(crate) fn lead_place(out: &mut Vec<u8>, name: &str, place: Option<Point>)
    requires plain { escape name.now ≡ name.now }
    requires room { vec_len out.old + length name.now + 42 ≤ vec_capacity out.old }
    ensures items { out.new.items ≡ out.old.items ++ leading ((name.now, placed place) ∷ []) }
    ensures len { vec_len out.new ≤ vec_len out.old + length name.now + 42 }
    ensures capacity { vec_capacity out.old ≤ vec_capacity out.new }
{
    put_string(out, name);
    put(out, b":");
    put_place(out, place);
    put(out, b",");
}

/// Puts a comma and a number.
#[tactic(auto, using(crate::proofs::Steps::follow_one))]
pub(crate) fn follow_count(out: &mut Vec<u8>, name: &str, number: u64)
    requires plain { escape name.now ≡ name.now }
    requires room { vec_len out.old + length name.now + 24 ≤ vec_capacity out.old }
    ensures items { out.new.items ≡ out.old.items ++ following ((name.now, count number) ∷ []) }
    ensures len { vec_len out.new ≤ vec_len out.old + length name.now + 24 }
    ensures capacity { vec_capacity out.old ≤ vec_capacity out.new }
{
    put(out, b",");
    put_string(out, name);
    put(out, b":");
    put_number(out, number);
}

/// Puts a comma and a name.
#[tactic(auto, using(crate::proofs::Steps::follow_one))]
pub(crate) fn follow_name(out: &mut Vec<u8>, name: &str, value: &Name)
    requires plain { escape name.now ≡ name.now }
    requires named { IsName value.now }
    requires room { vec_len out.old + length name.now + 38 ≤ vec_capacity out.old }
    ensures items { out.new.items ≡ out.old.items ++ following ((name.now, string value.now) ∷ []) }
    ensures len { vec_len out.new ≤ vec_len out.old + length name.now + 38 }
    ensures capacity { vec_capacity out.old ≤ vec_capacity out.new }
{
    put(out, b",");
    put_string(out, name);
    put(out, b":");
    put_name(out, value);
}

/// Puts a comma and a string without bytes that need escaping.
#[tactic(auto, using(crate::proofs::Steps::follow_one))]
pub(crate) fn follow_string(out: &mut Vec<u8>, name: &str, value: &str)
    requires plain { escape name.now ≡ name.now }
    requires plain_value { escape value.now ≡ value.now }
    requires room { vec_len out.old + length name.now + length value.now + 6 ≤ vec_capacity out.old }
    ensures items { out.new.items ≡ out.old.items ++ following ((name.now, string value.now) ∷ []) }
    ensures len { vec_len out.new ≤ vec_len out.old + length name.now + length value.now + 6 }
    ensures capacity { vec_capacity out.old ≤ vec_capacity out.new }
{
    put(out, b",");
    put_string(out, name);
    put(out, b":");
    put_string(out, value);
}

/// Puts a comma and a list of numbers.
#[tactic(auto, using(crate::proofs::Steps::follow_one))]
pub(crate) fn follow_counts(out: &mut Vec<u8>, name: &str, numbers: &[u64])
    requires plain { escape name.now ≡ name.now }
    requires room { vec_len out.old + length name.now + 21 * length numbers.now + 6 ≤ vec_capacity out.old }
    ensures items { out.new.items ≡ out.old.items ++ following ((name.now, counts numbers.now) ∷ []) }
    ensures len { vec_len out.new ≤ vec_len out.old + length name.now + 21 * length numbers.now + 6 }
    ensures capacity { vec_capacity out.old ≤ vec_capacity out.new }
{
    put(out, b",");
    put_string(out, name);
    put(out, b":");
    put_counts(out, numbers);
}

/// Puts the beginning of an object whose first member is a number.
#[tactic(auto, using(crate::proofs::Steps::open_one))]
pub(crate) fn open_count(out: &mut Vec<u8>, name: &str, number: u64)
    requires plain { escape name.now ≡ name.now }
    requires room { vec_len out.old + length name.now + 24 ≤ vec_capacity out.old }
    ensures items { out.new.items ≡ out.old.items ++ opening (name.now, count number) }
    ensures len { vec_len out.new ≤ vec_len out.old + length name.now + 24 }
    ensures capacity { vec_capacity out.old ≤ vec_capacity out.new }
{
    put(out, b"{");
    put_string(out, name);
    put(out, b":");
    put_number(out, number);
}

/// Puts the beginning of an object whose first member is a list of numbers.
#[tactic(auto, using(crate::proofs::Steps::open_one))]
pub(crate) fn open_counts(out: &mut Vec<u8>, name: &str, numbers: &[u64])
    requires plain { escape name.now ≡ name.now }
    requires room { vec_len out.old + length name.now + 21 * length numbers.now + 6 ≤ vec_capacity out.old }
    ensures items { out.new.items ≡ out.old.items ++ opening (name.now, counts numbers.now) }
    ensures len { vec_len out.new ≤ vec_len out.old + length name.now + 21 * length numbers.now + 6 }
    ensures capacity { vec_capacity out.old ≤ vec_capacity out.new }
{
    put(out, b"{");
    put_string(out, name);
    put(out, b":");
    put_counts(out, numbers);
}
