//! The text that a viewer was given, played on a canvas. Unlike `canvas::play_text` it is refused where something else
//! stands in it than what a viewer has to be given.

use crate::play;
use anyhow::{Result, bail};
use canvas::Canvas;
use guac_framing::{Frame, Next, next_instruction};
use guac_instr::read_server;
use std::alloc::Global;

// What becomes of an instruction that draws nothing, as those of the handshake.
#[derive(Clone, Copy)]
enum Others {
    Refused,
    Skipped,
}

/// The canvas after all instructions of the text, each of which has to be one that draws.
pub fn played(alloc: Global, text: &[u8]) -> Result<Canvas> {
    played_with(alloc, text, Others::Refused)
}

/// The canvas after all instructions of the text that draw; those of the handshake don't.
pub fn played_past_others(alloc: Global, text: &[u8]) -> Result<Canvas> {
    played_with(alloc, text, Others::Skipped)
}

fn played_with(alloc: Global, text: &[u8], others: Others) -> Result<Canvas> {
    let mut canvas = Canvas::new(alloc);
    play_text(&mut canvas, text, others)?;
    Ok(canvas)
}

fn play_text(canvas: &mut Canvas, text: &[u8], others: Others) -> Result<()> {
    let mut rest = text;
    for _ in 0..text.len() {
        match next_instruction(rest) {
            Next::Whole(frame, count) => {
                play_frame(canvas, &frame, others)?;
                rest = &rest[count..];
            }
            Next::More => break,
            Next::Bad(_) => bail!("no instruction"),
        }
    }
    Ok(())
}

fn play_frame(canvas: &mut Canvas, frame: &Frame<'_>, others: Others) -> Result<()> {
    match (read_server(frame), others) {
        (Some(instr), _) => play(canvas, &instr),
        (None, Others::Skipped) => Ok(()),
        (None, Others::Refused) => bail!("no instruction of the gateway's"),
    }
}
