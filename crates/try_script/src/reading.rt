//! Reads a file of rows.
//!
//! ```text
//! >> script            the words of the rows below, up to the next `>>`
//! start 80 24 none     input that stands before that of each of these rows
//! join owner
//! --
//! started 1            answers that stand before those of each of these rows
//! joined 1 1
//!
//! == one key           a row, and what it shows
//! write 1 3.key,2.97,1.1;
//! -- 0                 the status
//! written 1 0 0        the answers
//! ```
//!
//! The input and the answers are in the notation of `try_notation`, and empty lines of the answers don't
//! count. After `==` may stand comments, which begin with `#`, and settings, which begin with `@`. After the
//! status may stand `front`, where a front of the answers is written, or `end`, where the answers end so.
//! Then may come `-- frames`, or `-- frames front` or `-- frames end`, and what is written to the sink of
//! frames.
//!
//! - `@ piece 1`, `@ answers piece 5` and `@ frames piece 9`: how many bytes a read gives at most, and how
//!   many a write takes of the answers and of the frames; 7, 64 and 4,096 where none is told.
//! - `@ source 2`, `@ answers 1` and `@ frames 4`: the number of the call that fails.
//! - `@ sweep source 50`, `@ sweep answers 53` and `@ sweep frames 80`: so many reads, or so many writes of
//!   one sink, does the run make. It is run again with each of them failing, and ends then with the fault's
//!   status and with fronts of the answers and of the frames.
//! - `@ turns 1`: each read gives a line, and has to come after the answers to the lines before it.

use crate::draft::{Draft, Opening};
use crate::row::Row;
use anyhow::{Context, Result, bail};
use std::alloc::Global;

/// The rows of the file.
pub fn read_rows(alloc: Global, text: &str) -> Result<Vec<Row>> {
    let mut reader = FileReader {
        alloc,
        rows: Vec::new(alloc),
        opening: None,
        draft: None,
    };
    for (place, line) in text.lines().enumerate() {
        let number = place.saturating_add(1);
        reader.line(line).context(format_args!("line {number}"))?;
    }
    reader.end_draft()?;
    Ok(reader.rows)
}

// What is read so far of a file.
#[derive(Drop)]
struct FileReader {
    alloc: Global,
    rows: Vec<Row>,
    opening: Option<Opening>,
    draft: Option<Draft>,
}

impl FileReader {
    fn line(&mut self, line: &str) -> Result<()> {
        if let Some(words) = line.strip_prefix(">>") {
            self.end_draft()?;
            self.draft = Some(Draft::new(self.alloc, words, true)?);
        } else if let Some(title) = line.strip_prefix("== ") {
            self.end_draft()?;
            self.draft = Some(Draft::new(self.alloc, title, false)?);
        } else if let Some(draft) = self.draft.as_mut() {
            draft.line(line)?;
        } else if !line.is_empty() && !line.starts_with('#') {
            bail!("no words yet");
        }
        Ok(())
    }

    // Ends what was begun, if anything was.
    fn end_draft(&mut self) -> Result<()> {
        let Some(draft) = self.draft.take() else {
            return Ok(());
        };
        if draft.is_opening {
            self.opening = Some(draft.into_opening(self.alloc)?);
            Ok(())
        } else {
            self.add(draft)
        }
    }

    fn add(&mut self, draft: Draft) -> Result<()> {
        let Some(opening) = self.opening.as_ref() else {
            bail!("no words yet");
        };
        let row = draft.into_row(self.alloc, opening)?;
        self.rows.push(row)?;
        Ok(())
    }
}
