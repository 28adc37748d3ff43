//! Which destinations a link may have.

ghost use Rattle.std.specs.Prelude.{◌≡◌, map, option_map};
ghost use Rattle.std.specs.List.{list_all, prefix_len};
ghost use Rattle.std.specs.Str.{str_eq_ignore_ascii_case};
ghost use Rattle.cmark_grammar.specs.Escapes.{escaped_href};
ghost use Rattle.cmark_grammar.specs.Labels.{words};
ghost use Rattle.cmark_safe.specs.Schemes.{is_allowed, is_allowed_scheme, is_before_sign, is_one_of, is_scheme_byte, unwritten_scheme};

/// The schemes that an address may always have.
const USUAL_SCHEMES: &[&[u8]; 3] = &[b"http", b"https", b"mailto"];

/// The schemes that an address never has.
const REFUSED_SCHEMES: &[&[u8]; 4] = &[b"javascript", b"vbscript", b"data", b"file"];

/// Whether a link may have this destination: its escaped form is a relative address, or has an allowed scheme.
pub fn is_allowed(further: &str, destination: &str) -> bool
    ensures { result ≡ is_allowed further.now (escaped_href destination.now) }
{
    match scheme_of(destination.as_bytes()) {
        Some(name) => is_allowed_scheme(further, name),
        None => true,
    }
}

/// The scheme of a destination, if it has one.
fn scheme_of(destination: &[u8]) -> Option<&[u8]>
    ensures { option_map (λ name. name.now) result ≡ unwritten_scheme destination.now }
{
    let (name, following) = destination.split_at(count_before_sign(destination));
    match following.first() {
        Some(b':') => Some(name),
        _ => None,
    }
}

/// The number of bytes before the first sign that ends a scheme or shows that there is none.
fn count_before_sign(destination: &[u8]) -> usize
    ensures { result ≡ prefix_len is_before_sign destination.now }
{
    destination
        .iter()
        .take_while(|byte| is_before_sign(**byte))
        .count()
}

fn is_before_sign(byte: u8) -> bool
    ensures { result ≡ is_before_sign byte }
{
    !matches!(byte, b':' | b'/' | b'?' | b'#' | b'&' | b'\'')
}

/// Whether an address may have this scheme, which is written in any case.
fn is_allowed_scheme(further: &str, name: &[u8]) -> bool
    ensures { result ≡ is_allowed_scheme further.now name.now }
{
    has_scheme_bytes(name)
        && !is_one_of(REFUSED_SCHEMES, name)
        && (is_one_of(USUAL_SCHEMES, name) || is_word_of(further, name))
}

/// Whether all bytes are those of a scheme.
fn has_scheme_bytes(name: &[u8]) -> bool
    ensures { result ≡ list_all is_scheme_byte name.now }
{
    name.iter().all(|byte| is_scheme_byte(*byte))
}

fn is_scheme_byte(byte: u8) -> bool
    ensures { result ≡ is_scheme_byte byte }
{
    byte.is_ascii_alphanumeric() || matches!(byte, b'+' | b'-' | b'.')
}

/// Whether the name is one of these, in any case.
fn is_one_of(names: &[&[u8]], name: &[u8]) -> bool
    ensures { result ≡ is_one_of (map (λ other. other.now) names.now) name.now }
{
    for other in names {
        if is_same(name, other) {
            return true;
        }
    }
    false
}

/// Whether the name is one of the words of a list, in any case.
fn is_word_of(list: &str, name: &[u8]) -> bool
    ensures { result ≡ is_one_of (words list.now) name.now }
{
    for word in list.split_ascii_whitespace() {
        if is_same(name, word.as_bytes()) {
            return true;
        }
    }
    false
}

/// Whether the names are equal, in any case.
fn is_same(name: &[u8], other: &[u8]) -> bool
    ensures { result ≡ str_eq_ignore_ascii_case name.now other.now }
{
    name.eq_ignore_ascii_case(other)
}
