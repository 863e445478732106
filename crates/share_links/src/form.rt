//! The form of a link, as a request has it.

ghost use Rattle.std.specs.Prelude.{◌≡◌, ◌≤◌, All, IfOk, IfErr, IfSome};
ghost use Rattle.form_urlencoded.specs.Form.{parse};
ghost use Rattle.guac_handshake.specs.Forms.{IsText, StoppedBy};
ghost use Rattle.share_links.specs.Forms.{IsForm, IsNoForm, control_of, fields_of, no_fields, uses_of, wanted_by, with_pair};

use gate_model::Text;
use guac_handshake::{FormRefusal, read_pairs};
use numerals::number_within;
use std::alloc::Global;

/// The most uses of a link (this project's own).
const MOST_USES: u64 = 1_000_000;

/// A link that is wanted: to the session of this name, with this right and so many uses, 1 to 1,000,000.
#[derive(Drop)]
pub(crate) struct Wanted {
    pub id: Text,
    pub control: bool,
    pub uses: u32,
}

/// The fields of a form, each with its last value.
#[derive(Drop)]
pub(crate) struct Fields {
    pub id: Option<Text>,
    pub role: Option<Text>,
    pub uses: Option<Text>,
}

impl Fields {
    // None is given.
    fn none() -> Fields
        ensures { result ≡ no_fields }
    {
        Fields {
            id: None,
            role: None,
            uses: None,
        }
    }

    // One more name and value.
    fn put(&mut self, name: &str, value: Text)
        ensures { self.new ≡ with_pair self.old (name.now, value) }
    {
        match name {
            "id" => self.id = Some(value),
            "role" => self.role = Some(value),
            "uses" => self.uses = Some(value),
            _ => {}
        }
    }
}

// The fields of a body.
fn read_fields(alloc: Global, body: &[u8]) -> Result<Fields, FormRefusal>
    ensures fields { IfOk result (λ fields. All IsText (parse body.now) × (fields ≡ fields_of (parse body.now))) }
    ensures refused { IfErr result (StoppedBy (All IsText (parse body.now) → ⊥)) }
{
    let mut fields = Fields::none();
    for (name, value) in read_pairs(alloc, body)? {
        fields.put(name.as_str(), value);
    }
    Ok(fields)
}

// Whether the role is Control, where it is one of the two.
fn control_of(role: &str) -> Option<bool>
    ensures { result ≡ control_of role.now }
{
    match role {
        "control" => Some(true),
        "view" => Some(false),
        _ => None,
    }
}

// The number of uses, where it is in range.
fn uses_of(text: &str) -> Option<u32>
    ensures value { result ≡ uses_of text.now }
    ensures within { IfSome result (λ n. (1 ≤ n) × (n ≤ 1000000)) }
{
    let uses = number_within(text.as_bytes(), 1, MOST_USES)?;
    Some(uses as u32)
}

// The link that the fields want, where all are given and in form.
fn wanted_by(fields: Fields) -> Option<Wanted>
    ensures value { result ≡ wanted_by fields }
    ensures within { IfSome result (λ wanted. (1 ≤ wanted.uses) × (wanted.uses ≤ 1000000)) }
{
    let Fields { id, role, uses } = fields;
    match (id, role, uses) {
        (Some(id), Some(role), Some(uses)) => {
            let control = control_of(role.as_str())?;
            let uses = uses_of(uses.as_str())?;
            Some(Wanted { id, control, uses })
        }
        _ => None,
    }
}

/// The link that the form wants.
pub(crate) fn read_form(alloc: Global, body: &[u8]) -> Result<Wanted, FormRefusal>
    ensures form { IfOk result (IsForm body.now) }
    ensures within { IfOk result (λ wanted. (1 ≤ wanted.uses) × (wanted.uses ≤ 1000000)) }
    ensures refused { IfErr result (StoppedBy (IsNoForm body.now)) }
{
    let fields = read_fields(alloc, body)?;
    match wanted_by(fields) {
        Some(wanted) => Ok(wanted),
        None => Err(FormRefusal::Form),
    }
}
