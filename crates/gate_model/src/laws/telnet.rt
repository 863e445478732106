//! Laws of Telnet tokens.

ghost use Rattle.gate_model.specs.terminal.Replies.{RepliesGoOn, RepliesStay};
ghost use Rattle.gate_model.specs.telnet.TelnetLaws.{AnswersGoOn, DoubledIsData, SubnegotiationIsRead, TokensOfAnyCutting};

/// The tokens of a stream are the same however it is cut into pieces.
pub fn tokens_of_any_cutting()
    ensures { TokensOfAnyCutting }
{}

/// Bytes with each 255 doubled are read as those data bytes, and between IAC SB and IAC SE as that
/// subnegotiation, where they are at most 1,024 (RFC 854 and 855; the limit is this project's own).
pub fn doubled_bytes_are_read()
    ensures data { DoubledIsData }
    ensures subnegotiation { SubnegotiationIsRead }
{}

/// What is answered to tokens is the same however their list is cut.
pub fn option_answers_go_on()
    ensures { AnswersGoOn }
{}

/// What bytes that come after all changes of size are answered goes on, token by token, from the screen before them
/// with the size in force, and a change after all bytes answers nothing (this project's own).
pub fn replies_go_on()
    ensures bytes { RepliesGoOn }
    ensures size { RepliesStay }
{}
