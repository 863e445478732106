use crate::Request;
use crate::request::Selected;
use gate_model::Text;

/// The instruction for which a reader waits.
#[derive(Clone, Copy)]
pub(crate) enum Expected<'a> {
    /// `select`.
    Select,
    /// `connect` to what is selected, after the last readable size.
    Connect(&'a Selected, Option<(u32, u32)>),
}

/// What an instruction said.
#[derive(Drop)]
pub(crate) enum Said {
    /// It selects this name.
    Select(Text),
    /// The size of the display in pixels.
    Size((u32, u32)),
    /// `connect` asks this.
    Ask(Request),
    /// It is out of form.
    Bad,
    /// It is passed over.
    Other,
}
