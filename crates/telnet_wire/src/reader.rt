ghost use Rattle.std.specs.Prelude.{◌≡◌, ◌++◌, ◌∷◌, [], ℕ, List, IfOk, OnErr, ◌≤◌, ◌≢◌, All, length, take};
ghost use Rattle.std.specs.List.{cons_option};
ghost use Rattle.gate_model.specs.telnet.TelnetTokens.{head_sub};

use crate::kept::Kept;
use crate::part::Part;
use crate::state::State;
use gate_model::telnet_codes::{DO, DONT, GA, IAC, NOP, SB, SE, WILL, WONT};
use gate_model::{NoMemory, Token, Tokens};
use std::alloc::Global;

// The number of bytes before the first IAC.
fn data_length(piece: &[u8]) -> usize
    ensures few { result ≤ length piece.now }
    ensures data { All (λ b. b ≢ 255) (take result piece.now) }
{
    memchr::memchr(IAC, piece).unwrap_or(piece.len())
}

/// Reads bytes as Telnet tokens. Refused for want of memory, it may have read some of them.
#[derive(Clone, Copy)]
pub struct Reader {
    state: State,
    kept: Kept,
}

impl Reader {
    ghost use Rattle.telnet_wire.specs.Kept.{Holds};
    ghost use Rattle.telnet_wire.specs.State.{Follows, Stands, Gives, sub_command};
    ghost use Rattle.telnet_wire.specs.Parts.{given};

    /// A reader that has read nothing.
    pub fn new() -> Reader
        ensures { Stands result [] }
    {
        Reader {
            state: State::Data,
            kept: Kept::new(),
        }
    }

    /// Reads the bytes, and gives the tokens that they complete.
    pub fn read_piece(&mut self, alloc: Global, piece: &[u8]) -> Result<Tokens, NoMemory>
        ensures { IfOk result (λ given. (rest : List ℕ) → Stands self.old rest → Gives (rest ++ piece.now) given self.new) }
    {
        // A byte completes at most one token.
        let mut tokens = Vec::with_capacity(alloc, piece.len())?;
        for byte in piece {
            if let Some(token) = self.read(alloc, *byte)? {
                tokens.push(token)?;
            }
        }
        Ok(Tokens::of(tokens))
    }

    /// Reads the front of the piece: the data bytes before the first IAC, or one byte.
    pub fn next<'a>(
        &mut self,
        alloc: Global,
        piece: &'a [u8],
    ) -> Result<(Part<'a>, usize), NoMemory>
        requires { 1 ≤ length piece.now }
        ensures few { IfOk result (λ r. 1 ≤ r.1 × r.1 ≤ length piece.now) }
        ensures gives { IfOk result (λ r. (rest : List ℕ) → Stands self.old rest → Gives (rest ++ take r.1 piece.now) (given r.0) self.new) }
        ensures unchanged { OnErr result (self.new ≡ self.old) }
    {
        if let State::Data = self.state {
            let count = data_length(piece);
            if count > 0 {
                return Ok((Part::Run(&piece[..count]), count));
            }
        }
        match self.read(alloc, piece[0])? {
            Some(token) => Ok((Part::One(token), 1)),
            None => Ok((Part::Nothing, 1)),
        }
    }

    // Reads one more byte, and gives the token that it completes.
    fn read(&mut self, alloc: Global, byte: u8) -> Result<Option<Token>, NoMemory>
        ensures gives { IfOk result (λ token. (rest : List ℕ) → Stands self.old rest → Gives (rest ++ byte ∷ []) (cons_option token []) self.new) }
        ensures unchanged { OnErr result (self.new ≡ self.old) }
    {
        match self.state {
            State::Data => Ok(self.data(byte)),
            State::Command => Ok(self.command(byte)),
            State::AfterWill => {
                self.state = State::Data;
                Ok(Some(Token::Will(byte)))
            }
            State::AfterWont => {
                self.state = State::Data;
                Ok(Some(Token::Wont(byte)))
            }
            State::AfterDo => {
                self.state = State::Data;
                Ok(Some(Token::Do(byte)))
            }
            State::AfterDont => {
                self.state = State::Data;
                Ok(Some(Token::Dont(byte)))
            }
            State::Within => {
                self.within(byte);
                Ok(None)
            }
            State::WithinCommand => self.within_command(alloc, byte),
        }
    }

    // A byte outside a command.
    fn data(&mut self, byte: u8) -> Option<Token>
        ensures { Gives (byte ∷ []) (cons_option result []) self.new }
    {
        if byte == IAC {
            self.state = State::Command;
            return None;
        }
        self.state = State::Data;
        Some(Token::Byte(byte))
    }

    // A byte after IAC outside a subnegotiation, or where these two bytes ended one.
    fn command(&mut self, byte: u8) -> Option<Token>
        ensures { Gives (255 ∷ byte ∷ []) (cons_option result []) self.new }
    {
        self.state = State::Data;
        match byte {
            IAC => return Some(Token::Byte(IAC)),
            DONT => self.state = State::AfterDont,
            DO => self.state = State::AfterDo,
            WONT => self.state = State::AfterWont,
            WILL => self.state = State::AfterWill,
            SB => {
                self.kept.clear();
                self.state = State::Within;
            }
            NOP..=GA => return Some(Token::Single(byte)),
            _ => {}
        }
        None
    }

    // A byte within a subnegotiation.
    fn within(&mut self, byte: u8)
        ensures { (rest before : List ℕ) → Holds self.old.kept before → Follows rest byte (head_sub before) → Gives (rest ++ byte ∷ []) [] self.new }
    {
        if byte == IAC {
            self.state = State::WithinCommand;
            return;
        }
        self.state = State::Within;
        self.kept.push(byte);
    }

    // A byte after IAC within a subnegotiation.
    fn within_command(&mut self, alloc: Global, byte: u8) -> Result<Option<Token>, NoMemory>
        ensures gives { IfOk result (λ token. (rest before : List ℕ) → Holds self.old.kept before → Follows rest byte (sub_command before) → Gives (rest ++ byte ∷ []) (cons_option token []) self.new) }
        ensures unchanged { OnErr result (self.new ≡ self.old) }
    {
        match byte {
            IAC => {
                self.kept.push(IAC);
                self.state = State::Within;
                Ok(None)
            }
            SE => {
                let token = self.kept.token(alloc)?;
                self.state = State::Data;
                Ok(token)
            }
            _ => Ok(self.command(byte)),
        }
    }
}
