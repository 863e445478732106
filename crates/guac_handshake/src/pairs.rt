//! The pairs of a form: names and values, as an HTTP request has them.

ghost use Rattle.std.specs.Prelude.{◌≡◌, ◌++◌, ◌∷◌, [], All, IfOk, IfErr, IsUtf8, OnOk, map};
ghost use Rattle.form_urlencoded.specs.Form.{decode as decoded, parse, plus_to_space};
ghost use Rattle.guac_handshake.specs.Forms.{IsText, StoppedBy};

use crate::FormRefusal;
use form_urlencoded::raw_pairs;
use gate_model::Text;
use percent_encoding::percent_decode;
use std::alloc::{AllocError, Global};

// The bytes with a space for each `+`.
fn spaced(alloc: Global, raw: &[u8]) -> Result<Vec<u8>, AllocError>
    ensures { IfOk result (λ bytes. bytes.items ≡ map plus_to_space raw.now) }
{
    let mut bytes = Vec::with_capacity(alloc, raw.len())?;
    for byte in raw {
        bytes.push(if *byte == b'+' { b' ' } else { *byte })?;
    }
    Ok(bytes)
}

// The text of these bytes, where they are UTF-8.
fn text_in(bytes: Vec<u8>) -> Result<Text, FormRefusal>
    ensures text { IfOk result (λ text. text ≡ bytes.items) }
    ensures utf8 { IfOk result (λ _. IsUtf8 bytes.items) }
    ensures refused { IfErr result (StoppedBy (IsUtf8 bytes.items → ⊥)) }
{
    match String::from_utf8(bytes) {
        Ok(text) => Ok(Text::of(text)),
        Err(_) => Err(FormRefusal::Form),
    }
}

// The text that a name or a value stands for.
fn decoded(alloc: Global, raw: &[u8]) -> Result<Text, FormRefusal>
    ensures text { IfOk result (λ text. text ≡ decoded raw.now) }
    ensures utf8 { IfOk result (λ _. IsUtf8 (decoded raw.now)) }
    ensures refused { IfErr result (StoppedBy (IsUtf8 (decoded raw.now) → ⊥)) }
{
    let spaced = spaced(alloc, raw)?;
    let mut bytes = Vec::new(alloc);
    percent_decode(&spaced).append_to(&mut bytes)?;
    text_in(bytes)
}

// One pair, as it was sent.
fn decoded_pair(alloc: Global, name: &[u8], value: &[u8]) -> Result<(Text, Text), FormRefusal>
    ensures pair { IfOk result (λ pair. pair ≡ (decoded name.now, decoded value.now)) }
    ensures text { IfOk result IsText }
    ensures refused { IfErr result (StoppedBy (IsText (decoded name.now, decoded value.now) → ⊥)) }
{
    let name = decoded(alloc, name)?;
    let value = decoded(alloc, value)?;
    Ok((name, value))
}

// One pair more.
fn push_pair(pairs: &mut Vec<(Text, Text)>, pair: (Text, Text)) -> Result<(), AllocError>
    ensures { OnOk result (pairs.new.items ≡ pairs.old.items ++ pair ∷ []) }
{
    match pairs.push(pair) {
        Ok(()) => Ok(()),
        Err(refused) => Err(AllocError::from(refused)),
    }
}

/// The names and values of a body, in their order (the URL standard, section 5, on
/// `application/x-www-form-urlencoded`).
///
/// # Errors
///
/// `Form`, where one isn't UTF-8 once it is decoded.
pub fn read_pairs(alloc: Global, body: &[u8]) -> Result<Vec<(Text, Text)>, FormRefusal>
    ensures pairs { IfOk result (λ pairs. pairs.items ≡ parse body.now) }
    ensures texts { IfOk result (λ _. All IsText (parse body.now)) }
    ensures refused { IfErr result (StoppedBy (All IsText (parse body.now) → ⊥)) }
{
    let mut pairs = Vec::new(alloc);
    for (name, value) in raw_pairs(body) {
        let pair = decoded_pair(alloc, name, value)?;
        push_pair(&mut pairs, pair)?;
    }
    Ok(pairs)
}
