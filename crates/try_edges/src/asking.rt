//! Who asks for the page, and for which file of it.

use anyhow::{Context, Result};
use gate_model::Text;
use gate_outside::MemSink;
use page_files::{Judged, PageFile, answer, file_at, is_known, judge};
use std::alloc::Global;
use try_words::{bytes_of, push_escaped};

// The files of the page, and the one name by which it may be asked for, that stand for all.
const FILES: [PageFile; 2] = [
    PageFile {
        path: "/index.html",
        kind: "text/html",
        body: "<p>",
    },
    PageFile {
        path: "/main.js",
        kind: "text/javascript",
        body: "",
    },
];

const NAME: &str = "gate.example";

fn names(alloc: Global) -> Result<Vec<Text>> {
    let mut names = Vec::new(alloc);
    names.push(Text::of(String::from_str(alloc, NAME)?))?;
    Ok(names)
}

/// Whether the page may be asked for by a host.
pub fn known(alloc: Global, input: &str) -> Result<String> {
    let known = is_known(input.as_bytes(), &names(alloc)?);
    Ok(if known { "known" } else { "unknown" }.to_string(alloc)?)
}

/// What is told of a head: `refused`, its file's path, or `other`.
pub fn judged(alloc: Global, input: &str) -> Result<String> {
    let bytes = bytes_of(alloc, input)?;
    let told = match judge(&bytes, &FILES, &names(alloc)?) {
        Judged::Refused => "refused",
        Judged::File(file) => file.path,
        Judged::Other => "other",
    };
    Ok(told.to_string(alloc)?)
}

/// The answer to a request for a path, and `none` where no file has it.
pub fn answered(alloc: Global, input: &str) -> Result<String> {
    let Some(file) = file_at(&FILES, input.as_bytes()) else {
        return Ok("none".to_string(alloc)?);
    };
    let mut sink = MemSink::new(alloc, 4_096, 100, Vec::new(alloc))
        .ok()
        .context("no memory")?;
    answer(alloc, &mut sink, file).ok().context("not answered")?;
    let mut text = String::new(alloc);
    push_escaped(&mut text, sink.written())?;
    Ok(text)
}
