//! Roles, and the bytes of keys.

use anyhow::{Context, Result};
use gate_model::Mods;
use key_input::{encode, mods_after};
use share_policy::grant;
use std::alloc::Global;
use try_words::{asked_of, first_word, push_escaped, share_of};

const NONE_HELD: Mods = Mods {
    control_left: false,
    control_right: false,
    alt_left: false,
    alt_right: false,
};

/// The role of a joiner under a share mode.
pub fn role(alloc: Global, input: &str) -> Result<String> {
    let (mode, asked) = first_word(input);
    let text = match grant(share_of(mode)?, asked_of(asked)?) {
        Ok(role) => format!(in alloc; "{role:?}")?,
        Err(_) => "forbidden".to_string(alloc)?,
    };
    Ok(text)
}

// The modifiers after a key, which is a keysym in hexadecimal with `-` before a release.
fn after_key(mods: Mods, word: &str) -> Result<(Mods, u32)> {
    let (digits, pressed) = match word.strip_prefix("-") {
        Some(digits) => (digits, false),
        None => (word, true),
    };
    let keysym = u32::from_str_radix(digits, 16).ok().context("no keysym")?;
    Ok((mods_after(mods, keysym, pressed), keysym))
}

/// What the last key sends, with those before it held. `application` is that cursor mode.
pub fn sent(alloc: Global, input: &str) -> Result<String> {
    let mut mods = NONE_HELD;
    let mut text = String::new(alloc);
    let keys = input.strip_prefix("application ");
    for word in keys.unwrap_or(input).split(' ') {
        let (after, keysym) = after_key(mods, word)?;
        text.clear();
        push_escaped(&mut text, encode(keysym, mods, keys.is_some()).as_slice())?;
        mods = after;
    }
    Ok(text)
}

/// The modifiers that are held after keys.
pub fn held(alloc: Global, input: &str) -> Result<String> {
    let mut mods = NONE_HELD;
    for word in input.split(' ') {
        mods = after_key(mods, word)?.0;
    }
    let mut text = String::new(alloc);
    push_held(&mut text, mods)?;
    Ok(text)
}

/// Adds the names of the modifiers that are held, or `nothing`.
pub fn push_held(text: &mut String, mods: Mods) -> Result<()> {
    for (held, name) in [
        (mods.control_left, "left Control "),
        (mods.control_right, "right Control "),
        (mods.alt_left, "left Alt "),
        (mods.alt_right, "right Alt "),
    ] {
        if held {
            text.push_str(name)?;
        }
    }
    text.push_str(if mods == NONE_HELD {
        "nothing held"
    } else {
        "held"
    })?;
    Ok(())
}
