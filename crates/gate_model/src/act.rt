/// What an instruction of a viewer asks for (the Guacamole manual, "Guacamole protocol reference",
/// in this project's profile).
#[derive(Clone, Copy, Debug, PartialEq, Eq)]
pub enum Act {
    /// A key goes down or up. The keysym is X11's.
    Key { keysym: u32, pressed: bool },
    /// The pointer, in pixels, and the buttons that are down. It has no effect.
    Mouse { x: i32, y: i32, mask: u8 },
    /// The viewer has drawn every frame up to this stamp.
    Sync { stamp: u64 },
    /// The size of the viewer's display in pixels.
    Size { width: u32, height: u32 },
    /// Nothing.
    Nop,
    /// The viewer leaves.
    Disconnect,
}
