/// An instruction that the gateway sends (the Guacamole manual, "Guacamole protocol reference").
/// Layer 0 is visible; buffers are the layers from -1 down to -1,024. Places and sizes are pixels.
/// Every `cfill` and `copy` has mask 14 and every `cfill` alpha 255.
#[derive(Clone, Copy, Debug, PartialEq, Eq)]
pub enum Instr {
    /// Sets a layer's size.
    Size {
        layer: i32,
        width: u32,
        height: u32,
    },
    /// Adds a rectangle to a layer's path.
    Rect {
        layer: i32,
        x: u32,
        y: u32,
        width: u32,
        height: u32,
    },
    /// Fills a layer's path with a colour.
    Cfill {
        layer: i32,
        red: u8,
        green: u8,
        blue: u8,
    },
    /// Copies a rectangle of one layer to a place of another.
    Copy {
        from: i32,
        x: u32,
        y: u32,
        width: u32,
        height: u32,
        to: i32,
        to_x: u32,
        to_y: u32,
    },
    /// Ends a frame.
    Sync {
        stamp: u64,
    },
    /// The session has ended.
    Disconnect,
    /// A refusal; its text is fixed by the status.
    Error {
        status: u16,
    },
}
