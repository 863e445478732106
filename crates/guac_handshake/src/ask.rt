use gate_model::{Share, Text};

/// What a client asks of a session that is to begin (the Guacamole manual, "The Guacamole protocol"; the
/// ranges are this project's own).
#[derive(Drop)]
pub struct Ask {
    /// The Telnet host.
    pub host: Text,
    /// Its port, 1 to 65535.
    pub port: u16,
    /// The terminal type, 1 to 40 characters U+0021 to U+007E.
    pub term: Text,
    /// What joiners may do.
    pub mode: Share,
    /// Whether `read-only` was `true`; a creator types whatever it is.
    pub read_only: bool,
    /// The columns of the screen, 1 to 512.
    pub cols: u16,
    /// The rows of the screen, 1 to 256.
    pub rows: u16,
}
