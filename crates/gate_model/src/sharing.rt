/// What a session lets joiners do (this project's own rule).
#[derive(Clone, Copy, Debug, PartialEq, Eq)]
pub enum Share {
    /// Nobody joins but the owner and recorders.
    Nobody,
    /// Joiners look on.
    View,
    /// Joiners may ask to type.
    Control,
}

/// What a joiner asks for. Who calls sees to it that only a session's creator asks as `Owner`, and only a
/// recorder as `Keep`.
#[derive(Clone, Copy, Debug, PartialEq, Eq)]
pub enum Asked {
    Owner,
    Control,
    View,
    Keep,
}

/// What a viewer may do: type, look on, or record.
#[derive(Clone, Copy, Debug, PartialEq, Eq)]
pub enum Role {
    Control,
    View,
    Keep,
}
