//! Bytes as control functions.

use anyhow::Result;
use ecma_parser::Parser;
use gate_model::{Control, Params};
use std::alloc::Global;
use try_words::bytes_of;

const DEFAULT: u16 = 65535;

/// The control functions that the bytes complete.
pub fn functions(alloc: Global, input: &str) -> Result<String> {
    let mut parser = Parser::new();
    let mut text = String::new(alloc);
    for byte in bytes_of(alloc, input)?.iter() {
        let pair = parser.feed(*byte);
        if let Some(control) = pair.first {
            push_control(&mut text, &control)?;
        }
        if let Some(control) = pair.second {
            push_control(&mut text, &control)?;
        }
    }
    Ok(text)
}

fn push_control(text: &mut String, control: &Control) -> Result<()> {
    if !text.is_empty() {
        text.push_str(", ")?;
    }
    match control {
        Control::Print(ch) => {
            let number = *ch as u32;
            write!(text, "print {number:04X}")?;
        }
        Control::Code(code) => write!(text, "code {code:02X}")?,
        Control::Esc(last) => {
            let last = char::from(*last);
            write!(text, "esc {last}")?;
        }
        Control::Csi {
            private,
            params,
            last,
        } => push_sequence(text, *private, params, *last)?,
    }
    Ok(())
}

fn push_sequence(text: &mut String, private: bool, params: &Params, last: u8) -> Result<()> {
    text.push_str(if private { "csi ? " } else { "csi " })?;
    for value in params.values.iter().take(params.count as usize) {
        if *value == DEFAULT {
            text.push_str("default ")?;
        } else {
            write!(text, "{value} ")?;
        }
    }
    text.push(char::from(last))?;
    Ok(())
}
