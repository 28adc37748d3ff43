//! Email addresses (CommonMark 6.5).

ghost use Rattle.std.specs.Prelude.{◌≡◌, ◌≤◌, ◌==◌, length, not};
ghost use Rattle.std.specs.List.{prefix_len};
ghost use Rattle.cmark_grammar.specs.Characters.{period};
ghost use Rattle.cmark_grammar.specs.Autolinks.{is_domain_label, is_domain, is_email};

use crate::bytes::Class;
use crate::find::after_byte;

/// Whether these bytes are a label of a domain: 1 to 63 letters, digits and `-`, neither beginning nor ending with `-`.
fn is_domain_label(bytes: &[u8]) -> bool
    ensures { result ≡ is_domain_label bytes.now }
{
    let size = bytes.len();
    1 <= size
        && size <= 63
        && Class::TagName.count(bytes) == size
        && bytes[0] != b'-'
        && bytes[size - 1] != b'-'
}

/// The number of bytes before the first period, or of all bytes if there is no period.
fn label_size(bytes: &[u8]) -> usize
    ensures value { result ≡ prefix_len (λ b. not (b == period)) bytes.now }
    ensures within { result ≤ length bytes.now }
{
    bytes.iter().take_while(|byte| **byte != b'.').count()
}

/// Whether these bytes are labels with a period between each two.
fn is_domain(bytes: &[u8]) -> bool
    ensures { result ≡ is_domain bytes.now }
{
    let mut rest = bytes;
    'labels: loop {
        let size = label_size(rest);
        if !is_domain_label(&rest[..size]) {
            return false;
        }
        match after_byte(b'.', &rest[size..]) {
            Some(labels) => rest = labels,
            None => return true,
        }
    }
}

/// Whether these bytes are an email address: a local part of at least one byte, `@` and a domain.
pub(crate) fn is_email(bytes: &[u8]) -> bool
    ensures { result ≡ is_email bytes.now }
{
    let size = Class::Local.count(bytes);
    match after_byte(b'@', &bytes[size..]) {
        Some(domain) => 1 <= size && is_domain(domain),
        None => false,
    }
}
