//! The form of a connection, as an HTTP request has it.

ghost use Rattle.std.specs.Prelude.{◌≡◌, ℕ, List, All, IfOk, IfErr};
ghost use Rattle.form_urlencoded.specs.Form.{parse};
ghost use Rattle.guac_handshake.specs.Forms.{IsForm, IsNoForm, IsText, StoppedBy, ask_in, asked_by, fields_of, is_size_text, no_fields, role_of, size_of, text_of, with_pair};

use crate::connecting::read_ask;
use crate::pairs::read_pairs;
use crate::{Ask, FormRefusal, Request};
use gate_model::{Asked, NoMemory, Text};
use numerals::{number, number_within};
use std::alloc::Global;

/// The greatest width and height in pixels (this project's own).
const MOST_SIZE: u64 = i32::MAX as u64;

/// The fields of a form, each with its last value.
#[derive(Drop)]
pub(crate) struct Fields {
    pub id: Option<Text>,
    pub host: Option<Text>,
    pub port: Option<Text>,
    pub term: Option<Text>,
    pub read_only: Option<Text>,
    pub sharing: Option<Text>,
    pub width: Option<Text>,
    pub height: Option<Text>,
}

impl Fields {
    // None is given.
    fn none() -> Fields
        ensures { result ≡ no_fields }
    {
        Fields {
            id: None,
            host: None,
            port: None,
            term: None,
            read_only: None,
            sharing: None,
            width: None,
            height: None,
        }
    }

    // One more name and value.
    fn put(&mut self, name: &str, value: Text)
        ensures { self.new ≡ with_pair self.old (name.now, value) }
    {
        match name {
            "id" => self.id = Some(value),
            "hostname" => self.host = Some(value),
            "port" => self.port = Some(value),
            "terminal-type" => self.term = Some(value),
            "read-only" => self.read_only = Some(value),
            "sharing" => self.sharing = Some(value),
            "width" => self.width = Some(value),
            "height" => self.height = Some(value),
            _ => {}
        }
    }
}

// The fields of a body.
fn read_fields(alloc: Global, body: &[u8]) -> Result<Fields, FormRefusal>
    ensures fields { IfOk result (λ fields. All IsText (parse body.now) × (fields ≡ fields_of (parse body.now))) }
    ensures refused { IfErr result (StoppedBy (All IsText (parse body.now) → ⊥)) }
{
    let mut fields = Fields::none();
    for (name, value) in read_pairs(alloc, body)? {
        fields.put(name.as_str(), value);
    }
    Ok(fields)
}

// The text of a field, which is empty where it isn't given.
fn text_of(field: &Option<Text>) -> &str
    ensures { result.now ≡ text_of field.now }
{
    match field {
        Some(text) => text.as_str(),
        None => "",
    }
}

// Whether a size is 1 to 20 digits, if it is given.
fn is_size_text(field: &Option<Text>) -> bool
    ensures { result ≡ is_size_text field.now }
{
    match field {
        Some(text) => number(text.as_str().as_bytes()).is_some(),
        None => true,
    }
}

// The size of the display in pixels, where both are given and neither is too large.
fn size_of(fields: &Fields) -> Option<(u32, u32)>
    ensures { result ≡ size_of fields.now }
{
    let width = number_within(text_of(&fields.width).as_bytes(), 0, MOST_SIZE)?;
    let height = number_within(text_of(&fields.height).as_bytes(), 0, MOST_SIZE)?;
    Some((width as u32, height as u32))
}

// The values of the fields, where they are all in form.
fn ask_in(alloc: Global, fields: &Fields) -> Result<Option<Ask>, NoMemory>
    ensures { IfOk result (λ ask. ask ≡ ask_in fields.now) }
{
    read_ask(
        alloc,
        text_of(&fields.host),
        text_of(&fields.port),
        text_of(&fields.term),
        text_of(&fields.read_only),
        text_of(&fields.sharing),
        size_of(fields),
    )
}

fn role_of(ask: &Ask) -> Asked
    ensures { result ≡ role_of ask.now }
{
    if ask.read_only {
        Asked::View
    } else {
        Asked::Control
    }
}

// What the fields ask, if they are in form.
fn asked_by(alloc: Global, fields: Fields) -> Result<Option<Request>, NoMemory>
    ensures { IfOk result (λ asked. asked ≡ asked_by fields) }
{
    if !is_size_text(&fields.width) || !is_size_text(&fields.height) {
        return Ok(None);
    }
    let Some(ask) = ask_in(alloc, &fields)? else {
        return Ok(None);
    };
    let Fields { id, host, .. } = fields;
    match (id, host) {
        (Some(id), _) => {
            let asked = role_of(&ask);
            Ok(Some(Request::Join { id, asked }))
        }
        (None, Some(_)) => Ok(Some(Request::Begin(ask))),
        (None, None) => Ok(None),
    }
}

/// What the form asks of a door.
pub(crate) fn read_form(alloc: Global, body: &[u8]) -> Result<Request, FormRefusal>
    ensures form { IfOk result (IsForm body.now) }
    ensures refused { IfErr result (StoppedBy (IsNoForm body.now)) }
{
    let fields = read_fields(alloc, body)?;
    match asked_by(alloc, fields)? {
        Some(request) => Ok(request),
        None => Err(FormRefusal::Form),
    }
}
