/// How many key acts of a write count: those of a viewer who may type, and those of another.
#[derive(Clone, Copy, Debug, PartialEq, Eq)]
pub struct Written {
    pub keys: u32,
    pub denied: u32,
}
