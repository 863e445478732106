use gate_model::Token;

/// What the front of a piece gives.
#[derive(Drop)]
pub enum Part<'a> {
    /// These data bytes, none of which is 255: a token each.
    Run(&'a [u8]),
    /// A token.
    One(Token),
    /// No token yet.
    Nothing,
}
