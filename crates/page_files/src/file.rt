//! A file of the page.

/// A file of the page: the path by which it is asked for, as `/main.js`, its kind, as `text/javascript`, and its text.
#[derive(Clone, Copy)]
pub struct PageFile {
    pub path: &'static str,
    pub kind: &'static str,
    pub body: &'static str,
}
