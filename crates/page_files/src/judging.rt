//! What is done with the bytes at the front of a connection.

ghost use Rattle.std.specs.Prelude.{◌≡◌};

use crate::{PageFile, file_at, is_known};
use gate_model::Text;
use httparse::Status;
use httparse::spans::{EMPTY_HEADER_SPAN, HeaderSpan, parse_request};

// The most fields of a head, as in `http_front`.
const MOST_FIELDS: usize = 64;

/// What is done with a connection where the service has a page.
#[derive(Clone, Copy)]
pub enum Judged<'a> {
    /// It asks by a host that isn't known, and is refused.
    Refused,
    /// It asks for this file.
    File(&'a PageFile),
    /// Anything else.
    Other,
}

/// Judges the bytes that were read ahead: the head of a request whole, or bytes that are none.
pub fn judge<'a>(bytes: &[u8], files: &'a [PageFile], names: &[Text]) -> Judged<'a> {
    let mut fields = [EMPTY_HEADER_SPAN; MOST_FIELDS];
    let Ok(Status::Complete(spans)) = parse_request(bytes, &mut fields) else {
        return Judged::Other;
    };
    if has_unknown(bytes, &fields[..spans.headers], names) {
        return Judged::Refused;
    }
    let method = bytes
        .get(spans.method.start..spans.method.end)
        .unwrap_or(&[]);
    let target = bytes.get(spans.path.start..spans.path.end).unwrap_or(&[]);
    match file_at(files, target) {
        Some(file) if method == b"GET".as_slice() => Judged::File(file),
        _ => Judged::Other,
    }
}

// Whether a field `Host` names a host that isn't known.
fn has_unknown(bytes: &[u8], fields: &[HeaderSpan], names: &[Text]) -> bool {
    for field in fields {
        let name = bytes.get(field.name.start..field.name.end).unwrap_or(&[]);
        let value = bytes.get(field.value.start..field.value.end).unwrap_or(&[]);
        if name.eq_ignore_ascii_case(b"host") && !is_known(value, names) {
            return true;
        }
    }
    false
}
