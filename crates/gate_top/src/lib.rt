//! What the program does, by its words: `top` does `serve`, and gives every other list of words to `gate_script::command`.
//!
//! Its contract says of `serve` how it may end (`IsServeStatus` of gate_service), and of all other words what was read,
//! what was written, and the status (`IsCommandStatus` of `specs/Program.antt`, with `Outcome` of gate_script).
#![tactic(auto)]

ghost use Rattle.std.specs.Prelude.{◌≡◌, ◌≤◌, ◌⊎◌, IfSome, None, map, option_map, string_bytes};
ghost use Rattle.gate_outside.specs.Edge.{Rose};
ghost use Rattle.gate_script.specs.Outcomes.{Outcome, Ran};
ghost use Rattle.gate_service.specs.Serving.{IsServeStatus};
ghost use Rattle.gate_top.specs.Program.{IsCommandStatus, IsStatusCaused};
ghost use Rattle.gate_top.specs.Words.{behind_serve};

use gate_outside::{Net, Sink, Source};
use gate_script::command;
use gate_service::serve;
use log::Log;
use page_files::PageFile;
use session_list::SessionList;
use std::alloc::Global;
use std::sync::Wait;
use std::thread::Threads;

/// The ends of the program: its input, where answers and frames go, where connections come from, the files of the
/// page that it hands out, where a service notes, and the list of what runs in it.
#[derive(Drop)]
pub struct Host<S, A, F, N, L> {
    pub source: S,
    pub answers: A,
    pub frames: F,
    pub net: N,
    pub files: &'static [PageFile],
    pub log: L,
    pub list: SessionList,
}

/// Does what the words after the program's name say, and answers the status. The words `serve` and its options are
/// the service's: it ends with 2, where they give no options, 6 or 8 alone, and calls neither the source nor a sink.
/// All other words are those of `gate_script::command`, with its promise, and the net isn't called.
pub fn top<R, S, A, F, N, L>(
    rt: &R,
    alloc: Global,
    words: &[String],
    host: &mut Host<S, A, F, N, L>,
) -> u8
where
    R: Threads + Wait + Copy + Send + Sync + Drop + 'static,
    S: Source,
    A: Sink,
    F: Sink,
    N: Net,
    L: Log + Copy + Send + Drop + 'static,
    ensures served { IfSome (behind_serve (map string_bytes words.now)) (λ options. IsServeStatus options (host.new.net ≡ host.old.net) result ×
        ((host.new.source ≡ host.old.source) × (host.new.answers ≡ host.old.answers) × (host.new.frames ≡ host.old.frames))) }
    ensures ran { behind_serve (map string_bytes words.now) ≡ None → IsCommandStatus (map string_bytes words.now)
        ((S.left host.new.source ≡ S.left host.old.source) × (A.written host.new.answers ≡ A.written host.old.answers) × (F.written host.new.frames ≡ F.written host.old.frames))
        (λ form. Ran (S.left host.old.source) (S.left host.new.source) (A.written host.old.answers) (A.written host.new.answers) (F.written host.old.frames) (F.written host.new.frames) (Outcome result form (S.left host.new.source)))
        result × (host.new.net ≡ host.old.net) }
    ensures cause { IsStatusCaused (Rose (S.faults host.old.source) (S.faults host.new.source)) (Rose (A.faults host.old.answers) (A.faults host.new.answers) ⊎ Rose (F.faults host.old.frames) (F.faults host.new.frames)) (Rose (N.net_faults host.old.net) (N.net_faults host.new.net)) result }
    ensures later { (S.faults host.old.source ≤ S.faults host.new.source) × (A.faults host.old.answers ≤ A.faults host.new.answers) × (F.faults host.old.frames ≤ F.faults host.new.frames) × (N.net_faults host.old.net ≤ N.net_faults host.new.net) }
{
    match behind_serve(words) {
        Some(options) => serve(
            rt,
            alloc,
            options,
            &mut host.net,
            host.files,
            host.log,
            &host.list,
        ),
        None => command(
            alloc,
            words,
            &mut host.source,
            &mut host.answers,
            &mut host.frames,
        ),
    }
}

// What stands behind `serve`, where that is the first word.
fn behind_serve(words: &[String]) -> Option<&[String]>
    ensures { option_map (λ options. map string_bytes options.now) result ≡ behind_serve (map string_bytes words.now) }
{
    let (name, options) = words.split_first()?;
    if name.as_str() == "serve" {
        Some(options)
    } else {
        None
    }
}
