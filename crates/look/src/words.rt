//! The words of the program, read by hand.

use crate::until::Until;

/// How a picture is shown.
#[derive(Clone, Copy, Debug, PartialEq, Eq)]
pub enum Form {
    /// As text, a face a cell.
    Text,
    /// As a portable pixmap.
    Ppm,
}

/// What was asked for.
#[derive(Clone, Copy, Debug, PartialEq, Eq)]
pub struct Asked {
    /// How the picture is shown.
    pub form: Form,
    /// Which picture.
    pub until: Until,
    /// Of the lines of which number, where the input is frames; 0 is the session's own.
    pub viewer: u32,
}

/// What the words ask for: `[text|ppm] [last|frame N|stamp T] [viewer V]`, each part or none, in this order.
/// None for any other words. A number is 1 to 20 decimal digits, N and T below 2^64 and V below 2^32.
pub fn asked_of(words: &[String]) -> Option<Asked> {
    let (form, words) = form_of(words);
    let (until, words) = until_of(words)?;
    let viewer = viewer_of(words)?;
    Some(Asked {
        form,
        until,
        viewer,
    })
}

fn form_of(words: &[String]) -> (Form, &[String]) {
    match words {
        [first, rest @ ..] if first.as_str() == "text" => (Form::Text, rest),
        [first, rest @ ..] if first.as_str() == "ppm" => (Form::Ppm, rest),
        _ => (Form::Text, words),
    }
}

fn until_of(words: &[String]) -> Option<(Until, &[String])> {
    match words {
        [first, rest @ ..] if first.as_str() == "last" => Some((Until::Last, rest)),
        [first, number, rest @ ..] if first.as_str() == "frame" => {
            Some((Until::Frame(number_of(number.as_str())?), rest))
        }
        [first, number, rest @ ..] if first.as_str() == "stamp" => {
            Some((Until::Stamp(number_of(number.as_str())?), rest))
        }
        _ => Some((Until::Last, words)),
    }
}

fn viewer_of(words: &[String]) -> Option<u32> {
    match words {
        [] => Some(0),
        [first, number] if first.as_str() == "viewer" => {
            u32::try_from(number_of(number.as_str())?).ok()
        }
        _ => None,
    }
}

// The number of 1 to 20 decimal digits, where it is below 2^64.
fn number_of(word: &str) -> Option<u64> {
    let digits = word.as_bytes();
    if digits.is_empty() || digits.len() > 20 {
        return None;
    }
    let mut number: u64 = 0;
    for digit in digits {
        if !digit.is_ascii_digit() {
            return None;
        }
        number = number
            .checked_mul(10)?
            .checked_add(u64::from(*digit - b'0'))?;
    }
    Some(number)
}
