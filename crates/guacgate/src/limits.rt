//! What the words of `serve` set at the edge: the limits of the net, how is noted, and where the operator asks.

use crate::saying::say;
use outside_tcp::{Limits, RuleFault, Rules};
use serve_options::{
    Allowed, LogFormat, Names, Options, WordsFault, cause, cause_of_admin, cause_of_prefix,
    options_of,
};
use std::net::{IpAddr, SocketAddr};

/// The limits of the net, how is noted, where the operator asks, if anywhere, and the names by which that may be.
#[derive(Drop)]
pub(crate) struct Edge {
    pub(crate) limits: Limits,
    pub(crate) format: LogFormat,
    pub(crate) admin: Option<SocketAddr>,
    pub(crate) names: Option<Names>,
}

impl Edge {
    // That of words that give no options.
    fn none() -> Edge {
        Edge {
            limits: Limits::none(),
            format: LogFormat::Text,
            admin: None,
            names: None,
        }
    }
}

/// What the words set: nothing, where they give no options, which is told, and whose status is for who does what they
/// say. The status is 2 where a prefix of `--allow` or the address of `--admin` is of no form, and 6 where memory is
/// wanting.
pub(crate) fn edge_of<R: AllocGlobal + Eprint>(rt: &R, words: &[String]) -> Result<Edge, u8> {
    let Some(options) = behind_serve(words) else {
        return Ok(Edge::none());
    };
    match options_of(rt.alloc(), options) {
        Ok(options) => edge_in(rt, options),
        Err(WordsFault::Usage) => {
            if let Some(said) = cause(rt.alloc(), options).map_err(|_| 6)? {
                say(rt, &said);
            }
            Ok(Edge::none())
        }
        Err(WordsFault::NoMemory) => Err(6),
    }
}

// What the options set.
fn edge_in<R: AllocGlobal + Eprint>(rt: &R, options: Options) -> Result<Edge, u8> {
    let limits = limits_in(rt, &options)?;
    let admin = match &options.admin {
        Some((address, port)) => Some(admin_in(rt, address.as_str(), *port)?),
        None => None,
    };
    Ok(Edge {
        limits,
        format: options.format,
        admin,
        names: options.page,
    })
}

// Where the operator asks: an address, which may stand in brackets, and a port. A text that is no address is told.
fn admin_in<R: AllocGlobal + Eprint>(rt: &R, text: &str, port: u16) -> Result<SocketAddr, u8> {
    let bare = text.strip_prefix("[").and_then(|it| it.strip_suffix("]"));
    match bare.unwrap_or(text).parse::<IpAddr>() {
        Ok(address) => Ok(SocketAddr::new(address, port)),
        Err(_) => {
            say(rt, &cause_of_admin(rt.alloc(), text, port).map_err(|_| 6)?);
            Err(2)
        }
    }
}

// What stands behind `serve`.
pub(crate) fn behind_serve(words: &[String]) -> Option<&[String]> {
    let (name, options) = words.split_first()?;
    if name.as_str() == "serve" {
        Some(options)
    } else {
        None
    }
}

// The limits of the options.
fn limits_in<R: AllocGlobal + Eprint>(rt: &R, options: &Options) -> Result<Limits, u8> {
    let rules = match &options.allow {
        Some(allow) => Some(rules_in(rt, allow, options)?),
        None => None,
    };
    Ok(Limits {
        silence: options.silence,
        rules,
    })
}

// What may be dialed: what the words name, and the recorder.
fn rules_in<R: AllocGlobal + Eprint>(
    rt: &R,
    allow: &Allowed,
    options: &Options,
) -> Result<Rules, u8> {
    let mut rules = Rules::new(rt.alloc());
    if let Some((host, port)) = &options.recorder {
        add_rule(rt, &mut rules, host.as_str(), *port)?;
    }
    for (host, port) in allow.as_slice() {
        add_rule(rt, &mut rules, host.as_str(), *port)?;
    }
    Ok(rules)
}

// One more that may be dialed. A prefix of no form is told.
fn add_rule<R: AllocGlobal + Eprint>(
    rt: &R,
    rules: &mut Rules,
    host: &str,
    port: u16,
) -> Result<(), u8> {
    match rules.allow(rt.alloc(), host, port) {
        Ok(()) => Ok(()),
        Err(RuleFault::Form) => {
            say(rt, &cause_of_prefix(rt.alloc(), host, port).map_err(|_| 6)?);
            Err(2)
        }
        Err(RuleFault::NoMemory) => Err(6),
    }
}
