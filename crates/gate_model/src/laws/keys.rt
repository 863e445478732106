//! A law of keys.

ghost use Rattle.gate_model.specs.keys.KeyLaws.{ModifiersSendNothing};

/// A key that changes what is held sends nothing, whatever is held at its press.
pub fn modifiers_send_nothing()
    ensures { ModifiersSendNothing }
{}
