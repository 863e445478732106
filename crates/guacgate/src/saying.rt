//! What `serve` says of a run that ends, on standard error. The other forms of words write frames there, or nothing.

/// Says a text, which may end with its line.
pub(crate) fn say<R: Eprint>(rt: &R, text: &str) {
    let _ = eprintln!(rt; "{}", text.trim_end());
}

/// Says why a run ended before it began, with a status, where it is one of `serve` and nothing else tells it.
pub(crate) fn say_unprepared<R: Eprint>(rt: &R, serves: bool, status: u8) {
    if serves && status == 6 {
        say_end(rt, status);
    }
}

/// Says why a run of `serve` ended with a status, where nothing else tells it.
pub(crate) fn say_end<R: Eprint>(rt: &R, status: u8) {
    match status {
        6 => say(rt, "error: no memory is left"),
        8 => say(
            rt,
            "error: the port can't be listened on, or no connection can be accepted any more",
        ),
        _ => {}
    }
}
