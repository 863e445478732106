//! What the words `play` tell of a recording.

ghost use Rattle.std.specs.Prelude.{◌≡◌, ◌<◌, ◌++◌, List, Option, ℕ, length, slice_index_or, IfErr, IfOk, OnOk};
ghost use Rattle.gate_model.specs.picture.Layers.{Layers, visible};
ghost use Rattle.canvas.specs.Standing.{Stands};
ghost use Rattle.record_play.specs.declared.sync_at.SyncAt.{SyncAt as SyncsAt};
ghost use Rattle.gate_script.specs.PlayTold.{IsUntold, TellsAt, TellsInfo, TellsKeys, TellsOf, TellsSync, closed_words, first_line, info_lines, last_line, none_line, shown_lines};
ghost use Rattle.record_play.specs.Captured.{IsBadStreamOf};
ghost use Rattle.record_play.specs.Indexes.{IsFaultOf};

use crate::reply::push_answer_line;
use crate::seeing::rows_sum;
use canvas::Canvas;
use gate_model::NoMemory;
use record_play::{Player, RecordFault, Recording, SyncAt, key_log};
use script_grammar::PlayForm;
use std::alloc::Global;

/// What is told of the bytes. The place of the first fault is told apart.
pub(crate) fn told_of(alloc: Global, form: PlayForm, bytes: &[u8]) -> Result<Vec<u8>, RecordFault>
    ensures told { IfOk result (λ t. TellsOf form bytes.now t.items) }
    ensures fault { IfErr result (IsUntold form bytes.now) }
{
    match form {
        PlayForm::Info => info(alloc, bytes),
        PlayForm::At(stamp) => at(alloc, bytes, stamp),
        PlayForm::Keys => keys(alloc, bytes),
    }
}

// `play info`: the index.
fn info(alloc: Global, bytes: &[u8]) -> Result<Vec<u8>, RecordFault>
    ensures told { IfOk result (λ t. TellsInfo bytes.now t.items) }
    ensures fault { IfErr result (IsFaultOf bytes.now) }
{
    let recording = Recording::read(alloc, bytes)?;
    let text = info_lines(alloc, &recording)?;
    Ok(text)
}

// The lines of the index.
fn info_lines(alloc: Global, recording: &Recording<'_>) -> Result<Vec<u8>, NoMemory>
    ensures { IfOk result (λ t. t.items ≡ info_lines recording.now.syncs recording.now.closed recording.now.cut) }
{
    let mut text = Vec::new(alloc);
    let syncs = recording.syncs();
    push_answer_line(&mut text, "syncs", &[syncs.len() as u64])?;
    push_first(&mut text, syncs.first().copied())?;
    push_last(&mut text, syncs.last().copied())?;
    push_answer_line(&mut text, closed_words(recording.closed()), &[])?;
    push_answer_line(&mut text, "cut", &[recording.cut() as u64])?;
    Ok(text)
}

// Appends the line of the first stamp.
fn push_first(text: &mut Vec<u8>, sync: Option<SyncAt>) -> Result<(), NoMemory>
    ensures { OnOk result (text.new.items ≡ text.old.items ++ first_line sync) }
{
    match sync {
        Some(sync) => push_answer_line(text, "first", &[sync.stamp]),
        None => push_answer_line(text, "first -", &[]),
    }
}

// Appends the line of the last stamp.
fn push_last(text: &mut Vec<u8>, sync: Option<SyncAt>) -> Result<(), NoMemory>
    ensures { OnOk result (text.new.items ≡ text.old.items ++ last_line sync) }
{
    match sync {
        Some(sync) => push_answer_line(text, "last", &[sync.stamp]),
        None => push_answer_line(text, "last -", &[]),
    }
}

// The answer whether a recording is closed.
fn closed_words(closed: bool) -> &'static str
    ensures { result.now ≡ closed_words closed }
{
    if closed { "closed yes" } else { "closed no" }
}

// `play at STAMP`: the picture at the last sync whose stamp isn't above.
fn at(alloc: Global, bytes: &[u8], stamp: u64) -> Result<Vec<u8>, RecordFault>
    ensures told { IfOk result (λ t. TellsAt bytes.now stamp t.items) }
    ensures fault { IfErr result (IsFaultOf bytes.now) }
{
    let recording = Recording::read(alloc, bytes)?;
    let Some(k) = recording.find(stamp) else {
        let text = none_line(alloc)?;
        return Ok(text);
    };
    let text = shown(alloc, &recording, k)?;
    Ok(text)
}

// The line where no sync is found.
fn none_line(alloc: Global) -> Result<Vec<u8>, NoMemory>
    ensures { IfOk result (λ t. t.items ≡ none_line) }
{
    let mut text = Vec::new(alloc);
    push_answer_line(&mut text, "none", &[])?;
    Ok(text)
}

// What is shown at the sync of this number.
fn shown(alloc: Global, recording: &Recording<'_>, k: usize) -> Result<Vec<u8>, NoMemory>
    requires { k < length recording.now.syncs }
    ensures { IfOk result (λ t. (sync : SyncsAt) × (sync ≡ slice_index_or recording.now.syncs k sync) × TellsSync recording.now.bytes sync t.items) }
{
    let syncs = recording.syncs();
    let sync = syncs[k];
    let mut player = Player::new(alloc);
    player.seek(recording, k)?;
    shown_lines(alloc, player.canvas(), sync.stamp)
}

// The lines of a picture at a stamp.
fn shown_lines(alloc: Global, canvas: &Canvas, stamp: u64) -> Result<Vec<u8>, NoMemory>
    ensures { (m : Layers) → Stands canvas.now m → IfOk result (λ t. t.items ≡ shown_lines stamp (m visible)) }
{
    let mut text = Vec::new(alloc);
    let (width, height) = canvas.layer_size(0);
    let sum = rows_sum(canvas, width, height)?;
    push_answer_line(&mut text, "stamp", &[stamp])?;
    push_answer_line(&mut text, "size", &[u64::from(width), u64::from(height)])?;
    push_answer_line(&mut text, "sum", &[sum])?;
    Ok(text)
}

// `play keys`: the log of a client's keys, and a line feed.
fn keys(alloc: Global, bytes: &[u8]) -> Result<Vec<u8>, RecordFault>
    ensures told { IfOk result (λ t. TellsKeys bytes.now t.items) }
    ensures fault { IfErr result (IsBadStreamOf bytes.now) }
{
    let mut text = Vec::new(alloc);
    key_log(alloc, bytes, &mut text)?;
    text.push(b'\n')?;
    Ok(text)
}
