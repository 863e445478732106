//! Passes that are given back.

ghost use Rattle.std.specs.Prelude.{◌≡◌, None};

use crate::link::LinkPass;
use crate::member::Member;
use crate::reader::ReaderPass;
use crate::sender::SenderPass;
use crate::writer::WriterPass;

/// A pass that a host gave out, of any kind.
#[derive(Drop)]
pub enum AnyPass {
    Link(LinkPass),
    Sender(SenderPass),
    Reader(ReaderPass),
    Writer(WriterPass),
}

impl AnyPass {
    ghost use Rattle.shared_desk.specs.Given.{state_of};

    // The pass with its lock. It isn't the host's.
    pub(crate) fn into_member(self) -> Member
        ensures same { result ≡ state_of self }
        ensures not_first { result.view.given ≡ None }
    {
        match self {
            AnyPass::Link(pass) => pass.member,
            AnyPass::Sender(pass) => pass.member,
            AnyPass::Reader(pass) => pass.member,
            AnyPass::Writer(pass) => pass.member,
        }
    }
}
