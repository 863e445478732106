ghost use Rattle.std.specs.Prelude.{◌≡◌, Bool, Option, IfErr, OnOk, IsErr, IfSome, true};
ghost use Rattle.gate_outside.specs.Helpers.{Starts};
ghost use Rattle.gate_outside.specs.Starts.{is_refused};

use crate::Counted;
use std::sync::Wait;
use std::thread::{Builder, Promise, Threads};

/// How the next job starts.
#[derive(Clone, Copy, Debug, PartialEq, Eq)]
pub enum Way {
    /// In a thread of its own.
    Thread,
    /// In the call, before it answers.
    Here,
    /// Not at all.
    Refused,
}

/// Starts jobs (this project's own). A form says how its next job starts and counts those that didn't; the
/// start itself is the same for all, since a method of an impl can't start a thread.
pub trait Spawner: Counted {
    /// Whether the next job is refused, where the spawner tells.
    ghost refuses: { Self → Option Bool };

    /// Says how the next job starts.
    fn way(&mut self) -> Way
        ensures told { IfSome (refuses self.old) (λ b. is_refused result ≡ b) }
        ensures helper { Self.helper self.new ≡ Self.helper self.old };

    /// Counts a job that wasn't started.
    fn note(&mut self)
        ensures starts { Starts (Unit {0}) (Self.helper self.old) (Self.helper self.new) };

    /// Starts the job. One that isn't started comes back, only where the count of failed starts rose in this
    /// call; where the spawner tells that it refuses, the job comes back.
    final fn start<R: Threads + Wait, J: FnOnce() + Send + 'static>(
        &mut self,
        rt: &R,
        job: J,
    ) -> Result<(), J>
        requires { J.pre job }
        ensures given_back { IfErr result (λ j. j ≡ job) }
        ensures starts { Starts (IsErr result) (Self.helper self.old) (Self.helper self.new) }
        ensures none { OnOk result (Self.helper self.new ≡ Self.helper self.old) }
        ensures told { IfSome (refuses self.old) (λ b. b ≡ true → IsErr result) }
    {
        let way = self.way();
        match start_by(rt, way, job) {
            Ok(()) => Ok(()),
            Err(job) => {
                self.note();
                Err(job)
            }
        }
    }
}

/// Starts the job in that way. A job comes back where it is refused, and where no thread can be made.
pub fn start_by<R: Threads, J: FnOnce() + Send + 'static>(rt: &R, way: Way, job: J) -> Result<(), J>
    requires { J.pre job }
    ensures given_back { IfErr result (λ j. j ≡ job) }
    ensures refused { is_refused way ≡ true → IsErr result }
{
    match way {
        Way::Thread => start_thread(rt, job),
        Way::Here => {
            job();
            Ok(())
        }
        Way::Refused => Err(job),
    }
}

// How many bytes of stack the thread of a job has. Sixteen times what a job was seen to touch; a thread with the system's
// 8 MiB costs twice as much to make and to end, since libc keeps few of so many bytes for the next one.
const STACK: usize = 1_048_576;

// What is promised of the end of a job: nothing.
#[derive(Clone, Copy)]
struct Nothing;

impl Promise<()> for Nothing {
    ghost kept_by = { λ _ _. Unit {0} };
}

// Starts the job in a thread that runs on when its handle is dropped.
fn start_thread<R: Threads, J: FnOnce() + Send + 'static>(rt: &R, job: J) -> Result<(), J>
    requires { J.pre job }
    ensures { IfErr result (λ j. j ≡ job) }
{
    match Builder::new()
        .stack_size(STACK)
        .spawn_with(rt, Nothing, job)
    {
        Ok(_) => Ok(()),
        Err(refused) => Err(refused.value),
    }
}
