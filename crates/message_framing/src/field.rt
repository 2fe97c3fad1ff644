//! Header fields.

ghost use Rattle.std.specs.Prelude.{◌≡◌, ◌<◌, ℕ, List, IfSome, is_some, option_map};
ghost use Rattle.std.specs.List.{list_any};
ghost use Rattle.message_framing.specs.Fields.{is_blank, before, after, has, semicolon, is_foreign, is_same, trim_front, trim_back, trim, field_in, digit_in, number_in, is_utf8_name, is_other_charset, has_other_charset};

/// The most digits of a length.
const MAX_DIGITS: usize = 8;

fn is_blank(byte: u8) -> bool
    ensures { result ≡ is_blank byte }
{
    byte == b' ' || byte == b'\t'
}

fn is_foreign(byte: u8) -> bool
    ensures { result ≡ is_foreign byte }
{
    byte != b'\t' && (byte < b' ' || b'~' < byte)
}

fn trim_front(bytes: &[u8]) -> &[u8]
    ensures { result.now ≡ trim_front bytes.now }
{
    for (i, byte) in bytes.iter().enumerate() {
        if !is_blank(*byte) {
            return &bytes[i..];
        }
    }
    &bytes[bytes.len()..]
}

#[tactic(auto, using(crate::proofs::FieldLemmas::trims))]
fn trim_back(mut bytes: &[u8]) -> &[u8]
    ensures { result.now ≡ trim_back bytes.now }
{
    while let Some((last, rest)) = bytes.split_last() {
        if !is_blank(*last) {
            break;
        }
        bytes = rest;
    }
    bytes
}

/// Without spaces and tabs at both ends.
fn trim(bytes: &[u8]) -> &[u8]
    ensures { result.now ≡ trim bytes.now }
{
    trim_back(trim_front(bytes))
}

/// The same letters, in any case.
pub fn is_same(text: &[u8], other: &[u8]) -> bool
    ensures { result ≡ is_same text.now other.now }
{
    text.eq_ignore_ascii_case(other)
}

/// What stands before the first byte like this, and what behind it.
fn split(bytes: &[u8], mark: u8) -> Option<(&[u8], &[u8])>
    ensures there { is_some result ≡ has mark bytes.now }
    ensures parts { IfSome result (λ p. (p.0.now ≡ before mark bytes.now) × (p.1.now ≡ after mark bytes.now)) }
{
    for (i, byte) in bytes.iter().enumerate() {
        if *byte == mark {
            return Some((&bytes[..i], &bytes[i + 1..]));
        }
    }
    None
}

fn has_foreign(line: &[u8]) -> bool
    ensures { result ≡ list_any is_foreign line.now }
{
    line.iter().any(|byte| is_foreign(*byte))
}

fn has_blank(name: &[u8]) -> bool
    ensures { result ≡ list_any is_blank name.now }
{
    name.iter().any(|byte| is_blank(*byte))
}

/// The name and the value of a field, if the line is one.
pub fn field(line: &[u8]) -> Option<(&[u8], &[u8])>
    ensures { option_map {U = List ℕ × List ℕ} (λ f. (f.0.now, f.1.now)) result ≡ field_in line.now }
{
    if has_foreign(line) {
        return None;
    }
    let (name, value) = split(line, b':')?;
    if name.is_empty() || has_blank(name) {
        return None;
    }
    Some((name, trim(value)))
}

fn digit(byte: u8) -> Option<u32>
    ensures value { result ≡ digit_in byte }
    ensures below { IfSome result (λ d. d < 10) }
{
    if byte.is_ascii_digit() {
        Some(u32::from(byte - b'0'))
    } else {
        None
    }
}

/// The number that 1 to 8 digits say.
#[tactic(auto, using(crate::proofs::FieldLemmas::numbers))]
pub fn number(value: &[u8]) -> Option<u32>
    ensures { result ≡ number_in value.now }
{
    if value.is_empty() || value.len() > MAX_DIGITS {
        return None;
    }
    let mut number = 0;
    for byte in value {
        let digit = digit(*byte)?;
        number = number * 10 + digit;
    }
    Some(number)
}

/// The part up to the next semicolon.
#[tactic(auto, using(crate::proofs::FieldLemmas::parts))]
fn part(bytes: &[u8]) -> &[u8]
    ensures { result.now ≡ before semicolon bytes.now }
{
    match split(bytes, b';') {
        Some((part, _)) => part,
        None => bytes,
    }
}

fn is_utf8_name(charset: &[u8]) -> bool
    ensures { result ≡ is_utf8_name charset.now }
{
    is_same(charset, b"utf-8")
        || is_same(charset, b"utf8")
        || is_same(charset, b"\"utf-8\"")
        || is_same(charset, b"\"utf8\"")
}

/// Whether a part of a content type names a charset other than UTF-8.
fn is_other_charset(part: &[u8]) -> bool
    ensures { result ≡ is_other_charset part.now }
{
    let part = trim(part);
    let Some((name, charset)) = part.split_at_checked(CHARSET.len()) else {
        return false;
    };
    is_same(name, CHARSET) && !is_utf8_name(charset)
}

const CHARSET: &[u8] = b"charset=";

/// Whether a content type names a charset other than UTF-8.
pub fn has_other_charset(value: &[u8]) -> bool
    ensures { result ≡ has_other_charset value.now }
{
    for (i, byte) in value.iter().enumerate() {
        if *byte == b';' && is_other_charset(part(&value[i + 1..])) {
            return true;
        }
    }
    false
}
