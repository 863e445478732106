//! Where acts are cut.

ghost use Rattle.std.specs.Prelude.{◌≡◌};
ghost use Rattle.std.specs.List.{prefix_len};
ghost use Rattle.viewer_acts.specs.Parts.{is_other, size_in};

use gate_model::Act;

/// The size in pixels that an act asks for.
pub(crate) fn size_in(act: Act) -> Option<(u32, u32)>
    ensures { result ≡ size_in act }
{
    match act {
        Act::Size { width, height } => Some((width, height)),
        Act::Key { .. } | Act::Mouse { .. } | Act::Sync { .. } | Act::Nop | Act::Disconnect => None,
    }
}

// Whether an act asks for something else.
fn is_other(act: Act) -> bool
    ensures { result ≡ is_other act }
{
    size_in(act).is_none()
}

/// How many acts stand before the first that asks for a size.
pub(crate) fn run_length(acts: &[Act]) -> usize
    ensures { result ≡ prefix_len is_other acts.now }
{
    acts.iter().take_while(|act| is_other(**act)).count()
}
