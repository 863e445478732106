//! Which hosts may be dialed.

use std::alloc::{AllocError, Global};
use std::net::IpAddr;

/// Why a rule can't be had.
#[derive(Clone, Copy, Debug, PartialEq, Eq)]
pub enum RuleFault {
    /// Its prefix is of no form.
    Form,
    /// Want of memory.
    NoMemory,
}

impl From<AllocError> for RuleFault {
    fn from(_refused: AllocError) -> RuleFault {
        RuleFault::NoMemory
    }
}

// Whom a rule lets be dialed.
#[derive(Drop)]
enum Whom {
    // Every address but this machine's.
    Any,
    // The addresses with these first bits, but this machine's.
    Within(IpAddr, u32),
    Address(IpAddr),
    // The name, whatever address it has.
    Name(String),
}

#[derive(Drop)]
struct Rule {
    whom: Whom,
    port: u16,
}

/// What may be dialed, at which ports: names, addresses, prefixes of addresses, or all (this project's own). A name is
/// judged by the address that is dialed, unless a rule names it. This machine is dialed only where a rule names it or
/// its address.
#[derive(Drop)]
pub struct Rules {
    rules: Vec<Rule>,
}

/// What the rules say of a host before its name is looked up.
#[derive(Clone, Copy, Debug, PartialEq, Eq)]
pub(crate) enum Leave {
    /// A rule names it.
    Named,
    /// It is judged by its addresses.
    ByAddress,
}

impl Rules {
    /// Rules by which nothing may be dialed.
    pub fn new(alloc: Global) -> Rules {
        Rules {
            rules: Vec::new(alloc),
        }
    }

    /// One rule more: `*`, a prefix as `10.0.0.0/8` or `fd00::/8`, an address, or a name, and a port.
    pub fn allow(&mut self, alloc: Global, host: &str, port: u16) -> Result<(), RuleFault> {
        let whom = whom_of(alloc, host)?;
        match self.rules.push(Rule { whom, port }) {
            Ok(()) => Ok(()),
            Err(_) => Err(RuleFault::NoMemory),
        }
    }

    /// What is said of the host before it is looked up. None where no rule can let it be dialed.
    pub(crate) fn before_look_up(&self, host: &str, port: u16) -> Option<Leave> {
        let mut leave = None;
        for rule in self.rules.iter() {
            if rule.port == port {
                match &rule.whom {
                    Whom::Name(name) => {
                        if name.as_str().eq_ignore_ascii_case(host) {
                            return Some(Leave::Named);
                        }
                    }
                    Whom::Any | Whom::Within(..) | Whom::Address(_) => {
                        leave = Some(Leave::ByAddress)
                    }
                }
            }
        }
        leave
    }

    /// Whether a rule names the address.
    pub(crate) fn names(&self, address: IpAddr, port: u16) -> bool {
        let address = address.to_canonical();
        self.rules
            .iter()
            .any(|rule| rule.port == port && rule.whom.is_address(address))
    }

    /// Whether the address may be dialed, as far as it tells.
    pub(crate) fn allow_address(&self, address: IpAddr, port: u16) -> bool {
        let address = address.to_canonical();
        self.rules
            .iter()
            .any(|rule| rule.port == port && rule.whom.has(address))
    }
}

impl Whom {
    // Whether it is this address.
    fn is_address(&self, address: IpAddr) -> bool {
        match self {
            Whom::Address(own) => *own == address,
            Whom::Any | Whom::Within(..) | Whom::Name(_) => false,
        }
    }

    // Whether the address is among those that may be dialed.
    fn has(&self, address: IpAddr) -> bool {
        let elsewhere = !address.is_loopback() && !address.is_unspecified();
        match self {
            Whom::Any => elsewhere,
            Whom::Within(first, bits) => elsewhere && is_within(address, *first, *bits),
            Whom::Address(own) => *own == address,
            Whom::Name(_) => false,
        }
    }
}

// Whether the address has the first bits of the other.
fn is_within(address: IpAddr, first: IpAddr, bits: u32) -> bool {
    match (address, first) {
        (IpAddr::V4(one), IpAddr::V4(other)) => {
            let differs = one.to_bits() ^ other.to_bits();
            differs.checked_shr(32u32.saturating_sub(bits)).unwrap_or(0) == 0
        }
        (IpAddr::V6(one), IpAddr::V6(other)) => {
            let differs = one.to_bits() ^ other.to_bits();
            differs
                .checked_shr(128u32.saturating_sub(bits))
                .unwrap_or(0)
                == 0
        }
        _ => false,
    }
}

// Whom a text of a rule lets be dialed.
fn whom_of(alloc: Global, text: &str) -> Result<Whom, RuleFault> {
    if text == "*" {
        return Ok(Whom::Any);
    }
    if let Some((first, bits)) = text.split_once('/') {
        return within(first, bits).ok_or(RuleFault::Form);
    }
    match text.parse::<IpAddr>() {
        Ok(address) => Ok(Whom::Address(address.to_canonical())),
        Err(_) => Ok(Whom::Name(String::from_str(alloc, text)?)),
    }
}

// The addresses of a prefix.
fn within(first: &str, bits: &str) -> Option<Whom> {
    let first = first.parse::<IpAddr>().ok()?;
    let bits = bits.parse::<u32>().ok()?;
    let most = match first {
        IpAddr::V4(_) => 32,
        IpAddr::V6(_) => 128,
    };
    if bits <= most {
        Some(Whom::Within(first, bits))
    } else {
        None
    }
}
