//! Laws of instructions.

ghost use Rattle.gate_model.specs.picture.InstrLaws.{ActInUtf8, GreetingInUtf8, InstrInUtf8, TextSpells, WrittenIsReadBack};

/// What the gateway writes is read back: the text of an instruction spells its elements, and they mean that
/// instruction (the Guacamole manual, "The Guacamole protocol"; the ranges are this project's own).
pub fn written_is_read_back()
    ensures spelled { TextSpells }
    ensures read { WrittenIsReadBack }
{}

/// Elements in UTF-8 mean what they mean as code points.
pub fn meaning_in_utf8()
    ensures client { ActInUtf8 }
    ensures greeting { GreetingInUtf8 }
    ensures server { InstrInUtf8 }
{}
