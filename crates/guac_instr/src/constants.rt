//! Values that every instruction of the gateway has alike (the Guacamole manual, "Guacamole protocol
//! reference"; that there are no others is this project's own).

/// The mask that draws over what is there.
pub(crate) const OVER: u64 = 14;

/// The alpha of an opaque colour.
pub(crate) const OPAQUE: u64 = 255;
