//! The values of the options.

ghost use Rattle.std.specs.Prelude.{◌≡◌, ◌↔◌, IsSome, length, option_map};
ghost use Rattle.std.specs.List.{AllPass};
ghost use Rattle.hex.specs.Hex.{is_hex_digit};
ghost use Rattle.serve_options.specs.Values.{address_in, address_of, at_loopback, faces_of, flag_of, format_of, level_of, place_of, port_of, seconds_of, seed_of};

use crate::LogFormat;
use gate_model::Faces;
use hex::FromHex;
use log::LevelFilter;
use numerals::number_within;

/// The seed that 64 hexadecimal digits of either case give, the first byte first.
pub(crate) fn seed_of(text: &str) -> Option<[u8; 32]>
    ensures value { result ≡ seed_of text.now }
    ensures found { IsSome result ↔ ((length text.now ≡ 64) × AllPass is_hex_digit text.now) }
{
    <[u8; 32] as FromHex>::from_hex(text).ok()
}

/// The port that 1 to 20 decimal digits give, 1 to 65,535.
pub(crate) fn port_of(text: &str) -> Option<u16>
    ensures { result ≡ port_of text.now }
{
    match number_within(text.as_bytes(), 1, 65_535) {
        Some(number) => Some(number as u16),
        None => None,
    }
}

/// The seconds that 1 to 20 decimal digits give, 0 to 1,000,000.
pub(crate) fn seconds_of(text: &str) -> Option<u32>
    ensures { result ≡ seconds_of text.now }
{
    match number_within(text.as_bytes(), 0, 1_000_000) {
        Some(number) => Some(number as u32),
        None => None,
    }
}

/// The level of one of the three words.
pub(crate) fn level_of(text: &str) -> Option<LevelFilter>
    ensures { result ≡ level_of text.now }
{
    match text {
        "error" => Some(LevelFilter::Error),
        "warn" => Some(LevelFilter::Warn),
        "info" => Some(LevelFilter::Info),
        _ => None,
    }
}

/// The way of writing of one of the two words.
pub(crate) fn format_of(text: &str) -> Option<LogFormat>
    ensures { result ≡ format_of text.now }
{
    match text {
        "text" => Some(LogFormat::Text),
        "json" => Some(LogFormat::Json),
        _ => None,
    }
}

/// The set of faces of one of the two words.
pub(crate) fn faces_of(text: &str) -> Option<Faces>
    ensures { result ≡ faces_of text.now }
{
    match text {
        "ascii" => Some(Faces::Ascii),
        "more" => Some(Faces::More),
        _ => None,
    }
}

/// Whether a flag is given.
pub(crate) fn flag_of(text: &str) -> Option<bool>
    ensures { result ≡ flag_of text.now }
{
    match text {
        "true" => Some(true),
        "false" => Some(false),
        _ => None,
    }
}

/// The host and the port that stand round the last colon. The host isn't empty.
pub(crate) fn address_of(text: &str) -> Option<(&str, u16)>
    ensures { option_map (λ address. (address.0.now, address.1)) result ≡ address_of text.now }
{
    match text.rsplit_once(':') {
        Some((host, port)) => address_in(host, port),
        None => None,
    }
}

/// The address and the port that stand round the last colon, or the port alone, of this machine.
pub(crate) fn place_of(text: &str) -> Option<(&str, u16)>
    ensures { option_map (λ address. (address.0.now, address.1)) result ≡ place_of text.now }
{
    let Some((address, port)) = text.rsplit_once(':') else {
        return place_at(text);
    };
    address_in(address, port)
}

// The port of this machine.
fn place_at<'a>(port: &str) -> Option<(&'a str, u16)>
    ensures { option_map (λ address. (address.0.now, address.1)) result ≡ option_map at_loopback (port_of port.now) }
{
    let port = port_of(port)?;
    Some(("127.0.0.1", port))
}

// The host, which isn't empty, and the port.
fn address_in<'a>(host: &'a str, port: &str) -> Option<(&'a str, u16)>
    ensures { option_map (λ address. (address.0.now, address.1)) result ≡ address_in (host.now, port.now) }
{
    if host.is_empty() {
        return None;
    }
    let port = port_of(port)?;
    Some((host, port))
}
