//! Who tells what a session's marks say.

use crate::marks::{Deserted, Ended};
use crate::session::Session;

/// Tells what the marks of a session say at one look (this project's own). What a mark says when it is read has no clause,
/// since any thread may have written it; so what a look may answer is for each such teller to say, and a call that takes
/// a session out by what it was told shows by these relations that it asked.
pub trait Marks {
    ghost use Rattle.service_door.specs.Sessions.{SessionState};
    ghost use Rattle.service_door.specs.declared.marks.Deserted.{Deserted};
    ghost use Rattle.service_door.specs.declared.marks.Ended.{Ended};

    /// What a look at a session's two jobs may answer.
    ghost tells_ended: { Self → SessionState → Ended → Type 0 };

    /// What a look at how long nobody was in a session may answer.
    ghost tells_deserted: { Self → SessionState → Deserted → Type 0 };

    /// Which of the session's two jobs have ended.
    fn ended(&self, session: &Session) -> Ended
        ensures { tells_ended self.now session.now result };

    /// At how many looks in a row nobody was in the session.
    fn deserted(&self, session: &Session) -> Deserted
        ensures { tells_deserted self.now session.now result };
}

/// The marks that the session's own jobs set. Of what they say nothing is told.
#[derive(Clone, Copy)]
pub struct OwnMarks {}

impl Marks for OwnMarks {
    ghost tells_ended = { λ _ _ _. Unit {0} };

    ghost tells_deserted = { λ _ _ _. Unit {0} };

    fn ended(&self, session: &Session) -> Ended {
        session.marks.ended()
    }

    fn deserted(&self, session: &Session) -> Deserted {
        session.marks.deserted()
    }
}
