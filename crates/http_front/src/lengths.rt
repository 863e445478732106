//! What the fields of a head say of the body.

ghost use Rattle.std.specs.Prelude.{◌≡◌, ◌≤◌, All, bytes_eq, map, length};
ghost use Rattle.std.specs.Char.{to_ascii_lowercase};
ghost use Rattle.httparse.specs.Spans.{IsHeaderWithin, header_bytes};
ghost use Rattle.http_front.specs.Fields.{Decides, encoded_by, is_encoded, is_named, length_said, with_field};

use httparse::spans::HeaderSpan;
use numerals::number;

/// The most bytes of a body (this project's own).
const MOST_BODY: u128 = 1_048_576;

/// What fields say of the length of the body.
#[derive(Clone, Copy)]
pub(crate) enum BodyLength {
    /// Nothing.
    NotGiven,
    /// This number of bytes.
    Given(u128),
    /// No number, or two different ones.
    Unclear,
}

// Whether a field has this name.
fn is_named(name: &[u8], written: &[u8]) -> bool
    ensures { result ≡ is_named name.now written.now }
{
    written.eq_ignore_ascii_case(name)
}

// What is said after one more field.
fn with_field(said: BodyLength, name: &[u8], value: &[u8]) -> BodyLength
    ensures { result ≡ with_field said (name.now, value.now) }
{
    if !is_named(b"content-length", name) {
        return said;
    }
    match (said, number(value)) {
        (BodyLength::NotGiven, Some(given)) => BodyLength::Given(given),
        (BodyLength::Given(earlier), Some(given)) if earlier == given => said,
        _ => BodyLength::Unclear,
    }
}

/// What the fields of a head say of the length of the body.
pub(crate) fn length_said(head: &[u8], fields: &[HeaderSpan]) -> BodyLength
    requires { All (IsHeaderWithin (length head.now)) fields.now }
    ensures { result ≡ length_said (map (header_bytes head.now) fields.now) }
{
    let mut said = BodyLength::NotGiven;
    for field in fields {
        said = with_field(said, field.name.of(head), field.value.of(head));
    }
    said
}

// Whether the body is sent in another form, after one more field.
fn encoded_by(encoded: bool, name: &[u8], value: &[u8]) -> bool
    ensures { result ≡ encoded_by encoded (name.now, value.now) }
{
    let _ = value;
    encoded || is_named(b"transfer-encoding", name)
}

/// Whether the fields of a head say that the body is sent in another form.
pub(crate) fn is_encoded(head: &[u8], fields: &[HeaderSpan]) -> bool
    requires { All (IsHeaderWithin (length head.now)) fields.now }
    ensures { result ≡ is_encoded (map (header_bytes head.now) fields.now) }
{
    let mut encoded = false;
    for field in fields {
        encoded = encoded_by(encoded, field.name.of(head), field.value.of(head));
    }
    encoded
}

/// The number of the body's bytes, or the status with which the head is refused.
pub(crate) fn body_length(said: BodyLength, encoded: bool) -> Result<usize, u16>
    ensures { Decides said encoded result }
{
    match said {
        BodyLength::Unclear => Err(400),
        _ if encoded => Err(501),
        BodyLength::NotGiven => Ok(0),
        BodyLength::Given(length) if length > MOST_BODY => Err(413),
        BodyLength::Given(length) => Ok(length as usize),
    }
}
