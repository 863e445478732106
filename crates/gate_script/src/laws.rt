//! The lines and the frames fix the history: each function's contract is a law.

ghost use Rattle.gate_script.specs.Laws.{FinishedIsOnePlay, FramesFixAllButTheNewest, FramesFixThePlay, HaltedIsOnePlay, InterruptedIsOnePlay, LoadedIsOnePlay, RefusesIsOnePlay, WriteFaultFixesAllButTheNewest};

/// The orders of a run and the text of its frames fix the history, the moment, the answers and the bytes that
/// its takes print. Where the frames are cut short, only what the newest order did isn't fixed (this project's
/// own).
pub fn frames_fix_the_play()
    ensures whole { FramesFixThePlay }
    ensures cut { FramesFixAllButTheNewest }
{}

/// The bytes that a run read and the frames that it wrote fix the history that the contract of `command` speaks
/// of, and the answers. Where want of memory or a fault of a sink ended a script, the answers are needed too,
/// since they tell how many lines were done; after a fault of a sink the newest entry isn't fixed. A whole load
/// reads nothing: its seed, its rounds and its frames fix both, however often it took at the end (this project's
/// own).
pub fn runs_are_one_play()
    ensures finished { FinishedIsOnePlay }
    ensures interrupted { InterruptedIsOnePlay }
    ensures refused { RefusesIsOnePlay }
    ensures halted { HaltedIsOnePlay }
    ensures write_fault { WriteFaultFixesAllButTheNewest }
    ensures loaded { LoadedIsOnePlay }
{}
