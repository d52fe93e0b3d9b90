//! Header values that are lists, separated by commas.
ghost use Rattle.std.specs.Prelude.{◌≡◌, codes, reverse};
ghost use Rattle.std.specs.Str.{str_eq_ignore_ascii_case};
ghost use Rattle.httparse.specs.Grammar.{trim_ows, skip_ows};
ghost use Rattle.un_http.specs.Head.{lists_close};

// The text without the white space at its start.
fn trim_prefix(text: &[u8]) -> &[u8]
    ensures { result.now ≡ skip_ows text.now }
{
    let mut rest = text;
    while let [b' ' | b'\t', tail @ ..] = rest {
        rest = tail;
    }
    rest
}

// The text without the white space at its end.
fn trim_back(text: &[u8]) -> &[u8]
    ensures { reverse result.now ≡ skip_ows (reverse text.now) }
{
    let mut rest = text;
    while let [prefix @ .., b' ' | b'\t'] = rest {
        rest = prefix;
    }
    rest
}

// The text without the white space around it.
fn trim(text: &[u8]) -> &[u8]
    ensures { result.now ≡ trim_ows text.now }
{
    trim_back(trim_prefix(text))
}

// Whether an item is `close`.
fn is_close(item: &[u8]) -> bool
    ensures { result ≡ str_eq_ignore_ascii_case (trim_ows item.now) (codes "close") }
{
    trim(item).eq_ignore_ascii_case(b"close")
}

/// Whether `close` is an item of the list, ignoring case.
pub(crate) fn lists_close(text: &[u8]) -> bool
    ensures { result ≡ lists_close text.now }
{
    text.split(|byte| *byte == b',').any(|item| is_close(item))
}
