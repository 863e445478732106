//! A row: what is run, and what it has to give.

/// Of which part of what was written the bytes of a row are.
#[derive(Clone, Copy)]
pub enum Extent {
    Whole,
    Front,
    End,
}

/// What has to be written.
#[derive(Drop)]
pub struct Wanted {
    pub extent: Extent,
    pub bytes: Vec<u8>,
}

/// How many bytes a read gives and a write takes at most, and which calls fail, by their numbers, counted from
/// 1; 0 for none. Where `turns` isn't 0, each read gives a line, and has to come after the answers to the lines
/// before it.
#[derive(Clone, Copy)]
pub struct Ends {
    pub piece: usize,
    pub answers_piece: usize,
    pub frames_piece: usize,
    pub source: u64,
    pub answers: u64,
    pub frames: u64,
    pub turns: u64,
}

/// The end of which a call fails.
#[derive(Clone, Copy)]
pub enum Target {
    Source,
    Answers,
    Frames,
}

/// Further runs of a row, one for each call of one end, in which that call fails.
#[derive(Clone, Copy)]
pub struct Sweep {
    pub target: Target,
    /// How many calls of that end a run without a fault makes.
    pub calls: u64,
}

#[derive(Drop)]
pub struct Row {
    pub title: String,
    pub words: Vec<String>,
    pub input: Vec<u8>,
    pub ends: Ends,
    pub sweep: Option<Sweep>,
    pub status: u8,
    pub answers: Wanted,
    pub frames: Option<Wanted>,
}

impl Wanted {
    /// Whether what was written is what has to be.
    pub fn is_met(&self, written: &[u8]) -> bool {
        let wanted = self.bytes.as_slice();
        match self.extent {
            Extent::Whole => written == wanted,
            Extent::Front => wanted.starts_with(written),
            Extent::End => written.ends_with(wanted),
        }
    }
}

impl Sweep {
    /// The ends, of which the call with this number fails.
    pub fn ends(self, ends: Ends, call: u64) -> Ends {
        match self.target {
            Target::Source => Ends {
                source: call,
                ..ends
            },
            Target::Answers => Ends {
                answers: call,
                ..ends
            },
            Target::Frames => Ends {
                frames: call,
                ..ends
            },
        }
    }

    /// The status of a run in which a call fails.
    pub fn status(self) -> u8 {
        match self.target {
            Target::Source => 4,
            Target::Answers | Target::Frames => 5,
        }
    }
}
