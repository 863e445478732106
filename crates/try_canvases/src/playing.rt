//! Instructions played on canvases.

ghost use Rattle.std.specs.Prelude.{IsTrue};
ghost use Rattle.gate_model.specs.picture.Shape.{IsLayer};
ghost use Rattle.canvas.specs.Standing.{IsPlayable};

use anyhow::{Context, Result, bail};
use canvas::Canvas;
use gate_model::Instr;

/// Plays these instructions, up to the first that can't be played.
pub fn play_all(canvas: &mut Canvas, instrs: &[Instr]) -> Result<()> {
    for instr in instrs {
        play(canvas, instr)?;
    }
    Ok(())
}

/// Plays an instruction. One whose layers or sizes a canvas doesn't take is refused.
pub fn play(canvas: &mut Canvas, instr: &Instr) -> Result<()> {
    if !is_playable(instr) {
        bail!("not playable");
    }
    canvas.play(instr).ok().context("no memory")
}

fn is_layer(layer: i32) -> bool
    ensures { IsTrue result → IsLayer layer }
{
    -1024 <= layer && layer <= 0
}

fn is_playable(instr: &Instr) -> bool
    ensures { IsTrue result → IsPlayable instr.now }
{
    match *instr {
        Instr::Size {
            layer,
            width,
            height,
        } => is_layer(layer) && width <= 4096 && height <= 4096,
        Instr::Rect { layer, .. } => is_layer(layer),
        Instr::Cfill { layer, .. } => is_layer(layer),
        Instr::Copy { from, to, .. } => is_layer(from) && is_layer(to),
        Instr::Sync { .. } | Instr::Disconnect | Instr::Error { .. } => true,
    }
}
