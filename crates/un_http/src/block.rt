//! Where the block of a request begins and ends.
ghost use Rattle.std.specs.Prelude.{◌≡◌, ◌⊎◌, ℕ, List, [], ◌++◌, ◌≤◌, length, drop, MatchOption, vec_capacity, vec_len};
ghost use Rattle.std.specs.List.{prefix_len};
ghost use Rattle.un_http.specs.Block.{is_blank, IsBlank, Begins, ends_block, HasNoEnd, EndsAt};

// Whether the byte is CR or LF.
fn is_blank(byte: u8) -> bool
    ensures { result ≡ is_blank byte }
{
    byte == b'\r' || byte == b'\n'
}

// How many CR and LF bytes the bytes begin with.
fn blank_len(bytes: &[u8]) -> usize
    ensures value { result ≡ prefix_len is_blank bytes.now }
    ensures within { result ≤ length bytes.now }
{
    bytes.iter().take_while(|byte| is_blank(**byte)).count()
}

/// Drops the first `count` bytes.
pub(crate) fn drop_prefix(bytes: &mut Vec<u8>, count: usize)
    requires { count ≤ vec_len bytes.old }
    ensures items { bytes.new.items ≡ drop count bytes.old.items }
    ensures capacity { vec_capacity bytes.new ≡ vec_capacity bytes.old }
{
    let rest = bytes.len() - count;
    bytes.rotate_left(count);
    bytes.truncate(rest);
}

/// Drops the CR and LF bytes at the start.
pub(crate) fn drop_blank(bytes: &mut Vec<u8>)
    ensures dropped { (blank : List ℕ) × IsBlank blank × (bytes.old.items ≡ blank ++ bytes.new.items) }
    ensures begins { (bytes.new.items ≡ []) ⊎ Begins bytes.new.items }
    ensures capacity { vec_capacity bytes.new ≡ vec_capacity bytes.old }
{
    let count = blank_len(bytes);
    drop_prefix(bytes, count);
}

// Whether the bytes end with the end of a line and then an empty line.
fn ends_block(bytes: &[u8]) -> bool
    ensures { result ≡ ends_block bytes.now }
{
    bytes.ends_with(b"\n\n") || bytes.ends_with(b"\n\r\n")
}

/// The length of the shortest prefix of at most `most` bytes that ends with an empty line. The prefixes of up to `from`
/// bytes are known not to.
pub(crate) fn find_end(bytes: &[u8], from: usize, most: usize) -> Option<usize>
    requires order { from ≤ most }
    requires within { most ≤ length bytes.now }
    requires none { HasNoEnd from bytes.now }
    ensures { MatchOption result (HasNoEnd most bytes.now) (λ size. EndsAt bytes.now size × (size ≤ most)) }
{
    let mut at = from;
    while at < most {
        at += 1;
        if ends_block(&bytes[..at]) {
            return Some(at);
        }
    }
    None
}
