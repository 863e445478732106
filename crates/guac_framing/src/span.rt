//! Where the values of an instruction stand.

ghost use Rattle.std.specs.Prelude.{◌≡◌};
ghost use Rattle.guac_framing.specs.Spans.{IsSpan, text_at};

/// Where a value stands in the bytes: from its first byte to the one behind its last.
#[derive(Clone, Copy)]
pub(crate) struct Span {
    pub start: u16,
    pub end: u16,
}

/// The value at the span.
pub(crate) fn text_in(bytes: &[u8], span: Span) -> &str
    requires { IsSpan bytes.now span }
    ensures { result.now ≡ text_at bytes.now span }
{
    let value = &bytes[usize::from(span.start)..usize::from(span.end)];
    unsafe { std::str::from_utf8_unchecked(value) }
}
