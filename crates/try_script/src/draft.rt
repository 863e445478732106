//! A row, or what rows begin with, while its lines are read.

use crate::row::{Ends, Extent, Row, Sweep, Target, Wanted};
use anyhow::{Context, Result, anyhow, bail};
use std::alloc::Global;
use try_notation::ByteReader;

// What the next line belongs to.
#[derive(Clone, Copy)]
enum Part {
    Head,
    Input,
    Answers,
    Frames,
}

/// What was read of it so far. The title of an opening is what stands after its mark.
#[derive(Drop)]
pub struct Draft {
    pub title: String,
    pub is_opening: bool,
    pub ends: Ends,
    pub sweep: Option<Sweep>,
    pub input: ByteReader,
    pub status: Option<u8>,
    pub answers_extent: Extent,
    pub answers: ByteReader,
    pub frames_extent: Option<Extent>,
    pub frames: ByteReader,
    part: Part,
}

/// What rows begin with.
#[derive(Drop)]
pub struct Opening {
    words: Vec<String>,
    input: Vec<u8>,
    answers: Vec<u8>,
}

impl Draft {
    pub fn new(alloc: Global, title: &str, is_opening: bool) -> Result<Draft> {
        let title = title.to_string(alloc)?;
        Ok(Draft {
            title,
            is_opening,
            ends: Ends {
                piece: 7,
                answers_piece: 64,
                frames_piece: 4096,
                source: 0,
                answers: 0,
                frames: 0,
                turns: 0,
            },
            sweep: None,
            input: ByteReader::new(alloc),
            status: None,
            answers_extent: Extent::Whole,
            answers: ByteReader::new(alloc),
            frames_extent: None,
            frames: ByteReader::new(alloc),
            part: Part::Head,
        })
    }

    pub fn line(&mut self, line: &str) -> Result<()> {
        match self.part {
            Part::Head => self.head(line),
            Part::Input => self.input(line),
            Part::Answers => self.answers(line),
            Part::Frames => {
                if !line.is_empty() {
                    self.frames.line(line)?;
                }
                Ok(())
            }
        }
    }

    /// What the rows after it begin with.
    pub fn into_opening(self, alloc: Global) -> Result<Opening> {
        let mut words = Vec::new(alloc);
        for word in self.title.as_str().split(' ').skip(1) {
            words.push(word.to_string(alloc)?)?;
        }
        Ok(Opening {
            words,
            input: self.input.finish()?,
            answers: self.answers.finish()?,
        })
    }

    /// The row.
    pub fn into_row(self, alloc: Global, opening: &Opening) -> Result<Row> {
        let Draft {
            title,
            is_opening: _,
            ends,
            sweep,
            input,
            status,
            answers_extent,
            answers,
            frames_extent,
            frames,
            part: _,
        } = self;
        let frames = frames.finish()?;
        Ok(Row {
            title,
            words: opening.words.clone()?,
            input: joined(alloc, &opening.input, &input.finish()?)?,
            ends,
            sweep,
            status: status.context("no status")?,
            answers: Wanted {
                extent: answers_extent,
                bytes: joined(alloc, &opening.answers, &answers.finish()?)?,
            },
            frames: frames_extent.map(|extent| Wanted {
                extent,
                bytes: frames,
            }),
        })
    }

    fn head(&mut self, line: &str) -> Result<()> {
        if line.starts_with('#') || self.is_opening && line.is_empty() {
            return Ok(());
        }
        if let Some(setting) = line.strip_prefix("@ ") {
            return self.set(setting);
        }
        self.part = Part::Input;
        self.input(line)
    }

    fn set(&mut self, setting: &str) -> Result<()> {
        let (name, number) = setting.rsplit_once(' ').context("no number")?;
        let number = number.parse::<u64>().context("no number")?;
        match name {
            "piece" => self.ends.piece = usize::try_from(number)?,
            "answers piece" => self.ends.answers_piece = usize::try_from(number)?,
            "frames piece" => self.ends.frames_piece = usize::try_from(number)?,
            "source" => self.ends.source = number,
            "answers" => self.ends.answers = number,
            "frames" => self.ends.frames = number,
            "turns" => self.ends.turns = number,
            "sweep source" => self.sweep(Target::Source, number),
            "sweep answers" => self.sweep(Target::Answers, number),
            "sweep frames" => self.sweep(Target::Frames, number),
            _ => bail!("no such setting"),
        }
        Ok(())
    }

    fn sweep(&mut self, target: Target, calls: u64) {
        self.sweep = Some(Sweep { target, calls });
    }

    fn input(&mut self, line: &str) -> Result<()> {
        let Some(mark) = line.strip_prefix("--") else {
            self.input.line(line)?;
            return Ok(());
        };
        self.part = Part::Answers;
        if self.is_opening && mark.is_empty() {
            return Ok(());
        }
        let status = mark.trim();
        let (status, extent) = status.split_once(' ').unwrap_or((status, ""));
        self.status = Some(status.parse::<u8>().context("no status")?);
        self.answers_extent = extent_of(extent)?;
        Ok(())
    }

    fn answers(&mut self, line: &str) -> Result<()> {
        if let Some(mark) = line.strip_prefix("-- frames") {
            self.part = Part::Frames;
            self.frames_extent = Some(extent_of(mark.trim())?);
        } else if !line.is_empty() {
            self.answers.line(line)?;
        }
        Ok(())
    }
}

fn extent_of(word: &str) -> Result<Extent> {
    match word {
        "" => Ok(Extent::Whole),
        "front" => Ok(Extent::Front),
        "end" => Ok(Extent::End),
        _ => Err(anyhow!("neither front nor end")),
    }
}

fn joined(alloc: Global, first: &[u8], second: &[u8]) -> Result<Vec<u8>> {
    let mut bytes = first.to_vec(alloc)?;
    bytes.extend_from_slice(second)?;
    Ok(bytes)
}
