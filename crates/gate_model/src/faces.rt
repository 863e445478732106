/// Which characters of one place have a face of their own: those of ASCII alone, or more, which are line drawing,
/// letters with marks and signs (this project's own sets; every other character is a box).
#[derive(Clone, Copy, Debug, PartialEq, Eq)]
pub enum Faces {
    Ascii,
    More,
}
