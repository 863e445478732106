//! The text of instructions, read and played on a canvas.

ghost use Rattle.std.specs.Prelude.{◌≡◌, ◌++◌, ◌≤◌, ℕ, List, Some, length, IfOk, OnErr, OnOk};
ghost use Rattle.gate_model.specs.picture.Shape.{IsInRange};
ghost use Rattle.gate_model.specs.picture.Layers.{Layers, draw, nothing, play};
ghost use Rattle.gate_model.specs.text.ServerMeaning.{instr_of};
ghost use Rattle.gate_model.specs.text.Text.{text, texts};
ghost use Rattle.gate_model.specs.declared.instr.Instr.{Instr};
ghost use Rattle.canvas.specs.Standing.{Stands};
ghost use Rattle.gate_model.specs.picture.Shape.{AreReadable};
ghost use Rattle.canvas.specs.Played.{IsPartPlayed};

use crate::Canvas;
use gate_model::NoMemory;
use guac_framing::{Frame, Next, next_instruction};
use guac_instr::read_server;
use std::alloc::Global;

/// Plays the text of instructions on the canvas, up to where no instruction stands, and answers how many bytes that
/// were. It is refused for want of memory alone, and then the first instructions, some or none, have been played (the
/// Guacamole manual, "The Guacamole protocol" and "Guacamole protocol reference").
pub fn play_text(canvas: &mut Canvas, text: &[u8]) -> Result<usize, NoMemory>
    ensures within { IfOk result (λ n. n ≤ length text.now) }
    ensures whole { (is : List Instr) (m : Layers) → AreReadable is → text.now ≡ texts is → Stands canvas.old m → IfOk result (λ n. n ≡ length text.now) }
    ensures played { (is : List Instr) (m : Layers) → AreReadable is → text.now ≡ texts is → Stands canvas.old m → OnOk result (Stands canvas.new (draw m is)) }
    ensures stopped { (is : List Instr) (m : Layers) → AreReadable is → text.now ≡ texts is → Stands canvas.old m → OnErr result (IsPartPlayed is m canvas.new) }
{
    let mut at = 0;
    while at < text.len() {
        let count = play_first(canvas, &text[at..])?;
        if count == 0 {
            return Ok(at);
        }
        at += count;
    }
    Ok(at)
}

/// A canvas on which the text of instructions was played.
pub fn played(alloc: Global, text: &[u8]) -> Result<Canvas, NoMemory>
    ensures { (is : List Instr) → AreReadable is → text.now ≡ texts is → IfOk result (λ c. Stands c (draw nothing is)) }
{
    let mut canvas = Canvas::new(alloc);
    play_text(&mut canvas, text)?;
    Ok(canvas)
}

// Plays the instruction at the front of the bytes, and answers how many bytes it has: 0 where none
// stands there.
fn play_first(canvas: &mut Canvas, bytes: &[u8]) -> Result<usize, NoMemory>
    ensures within { IfOk result (λ n. n ≤ length bytes.now) }
    ensures count { (i : Instr) (rest : List ℕ) → IsInRange i → bytes.now ≡ text i ++ rest → IfOk result (λ n. n ≡ length (text i)) }
    ensures played { (i : Instr) (rest : List ℕ) (m : Layers) → IsInRange i → bytes.now ≡ text i ++ rest → Stands canvas.old m → OnOk result (Stands canvas.new (play m i)) }
    ensures unchanged { OnErr result ((m : Layers) → Stands canvas.old m → Stands canvas.new m) }
{
    match next_instruction(bytes) {
        Next::Whole(frame, count) => {
            play_frame(canvas, &frame)?;
            Ok(count)
        }
        Next::More | Next::Bad(_) => Ok(0),
    }
}

// Plays the instruction of these elements, where it is one that the gateway sends.
fn play_frame(canvas: &mut Canvas, frame: &Frame<'_>) -> Result<(), NoMemory>
    ensures played { (i : Instr) (m : Layers) → instr_of frame.now ≡ Some i → Stands canvas.old m → OnOk result (Stands canvas.new (play m i)) }
    ensures unchanged { OnErr result ((m : Layers) → Stands canvas.old m → Stands canvas.new m) }
{
    match read_server(frame) {
        Some(instr) => canvas.play(&instr),
        None => Ok(()),
    }
}
