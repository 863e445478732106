//! By which host a request may ask for the page, and for which file it asks.

ghost use Rattle.std.specs.Prelude.{◌≡◌, bytes_eq, find, map, option_map};
ghost use Rattle.std.specs.List.{list_all, list_any};
ghost use Rattle.page_files.specs.Asking.{is_address, is_address_sign, is_known, is_named, path_asked};

use crate::PageFile;
use gate_model::Text;

/// Whether the page may be asked for by this host: an address, `localhost`, or one of the names, with a port or without
/// one. The value of the field `Host` is not in its form where it is none of these.
pub fn is_known(host: &[u8], names: &[Text]) -> bool
    ensures { result ≡ is_known host.now names.now }
{
    is_address(host) || is_named(host, b"localhost") || has_name(host, names)
}

// Whether the host is an address.
fn is_address(host: &[u8]) -> bool
    ensures { result ≡ is_address host.now }
{
    host.first() == Some(&b'[') || all_signs(host)
}

// Whether all bytes may stand in an address of IPv4 with its port.
fn all_signs(bytes: &[u8]) -> bool
    ensures { result ≡ list_all is_address_sign bytes.now }
{
    bytes.iter().all(|byte| is_address_sign(*byte))
}

// Whether a byte may stand in an address of IPv4 with its port.
fn is_address_sign(byte: u8) -> bool
    ensures { result ≡ is_address_sign byte }
{
    byte.is_ascii_digit() || byte == b'.' || byte == b':'
}

// Whether the host has one of the names.
fn has_name(host: &[u8], names: &[Text]) -> bool
    ensures { result ≡ list_any (is_named host.now) names.now }
{
    names
        .iter()
        .any(|name| is_named(host, name.as_str().as_bytes()))
}

// Whether the host has this name, with a port or without one.
fn is_named(host: &[u8], name: &[u8]) -> bool
    ensures { result ≡ is_named host.now name.now }
{
    let Some(front) = host.get(..name.len()) else {
        return false;
    };
    front.eq_ignore_ascii_case(name) && *host.get(name.len()).unwrap_or(&b':') == b':'
}

/// The file that the target of a request asks for, the first of its path: `/` asks for `/index.html`.
pub fn file_at<'a>(files: &'a [PageFile], target: &[u8]) -> Option<&'a PageFile>
    ensures { option_map (λ file. file.now) result ≡ find (λ file. bytes_eq file.path.now (path_asked target.now)) files.now }
{
    let path = path_asked(target);
    files.iter().find(|file| file.path.as_bytes() == path)
}

// The path of the file that a target asks for.
fn path_asked(target: &[u8]) -> &[u8]
    ensures { result.now ≡ path_asked target.now }
{
    if target == b"/".as_slice() {
        b"/index.html"
    } else {
        target
    }
}
