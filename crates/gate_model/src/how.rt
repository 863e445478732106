use crate::Instrs;

/// How a read brought a viewer to the newest stamp.
#[derive(Drop)]
pub enum How {
    /// By every frame after the viewer's position.
    Suffix,
    /// By instructions of its own, over whatever the viewer had drawn.
    Fresh(Instrs),
}
