ghost use Rattle.std.specs.Prelude.{◌≡◌, ◌↔◌, List, ℕ, ◌≤◌, ◌<◌, length, map, string_bytes, IfOk, IsTrue};
ghost use Rattle.program_frame.specs.Call.{AreCounted};
ghost use Rattle.program_frame.specs.Program.{IsRequested, NeedsNoInput};

use super::call::serve;
use super::ending::{Ending, ExitStatus};
use super::reply::Reply;
use bspl_io::{Sink, Source};
use list_base::{Bytes, NoMemory};
use std::alloc::Global;

/// A program, as its whole call. One that answers only when it has its input is a `Program`.
pub trait Call<'a> {
    ghost use Rattle.std.specs.Prelude.{List, ℕ};
    ghost use Rattle.bspl_io.specs.Traffic.{Traffic};
    ghost use Rattle.program_frame.specs.declared.ending.Ending.{Ending};

    /// How an answer ends.
    type Status: ExitStatus;

    // A call with these arguments reads and writes this, and ends so.
    ghost calls: { List (List ℕ) → Traffic → Ending Self.Status → Type 0 };

    /// Reads and writes what the arguments ask for.
    fn call<R: Source, W: Sink>(
        alloc: Global,
        args: &'a [String],
        input: &mut R,
        output: &mut W,
    ) -> Ending<Self::Status>
        ensures call { calls (map string_bytes args.now) (record {
          remaining = R.remaining input.old;
          remaining_after = R.remaining input.new;
          contents = W.contents output.old;
          contents_after = W.contents output.new;
        }) result }
        ensures faults { AreCounted (record {
          reads = R.faults input.old;
          reads_after = R.faults input.new;
          writes = W.faults output.old;
          writes_after = W.faults output.new;
        }) result };
}

impl<'a, P: Program<'a>> Call<'a> for P {
    type Status = P::Status;

    ghost use Rattle.program_frame.specs.Call.{IsCall};

    ghost calls = { λ args t ending.
        IsCall (P.asks args) P.limit (P.answers args) t ending };

    fn call<R: Source, W: Sink>(
        alloc: Global,
        args: &'a [String],
        input: &mut R,
        output: &mut W,
    ) -> Ending<P::Status> {
        serve::<P, R, W>(alloc, args, input, output)
    }
}

/// A program, as what its arguments request: whether it wants the input, and what it answers.
pub trait Program<'a>: Drop {
    ghost use Rattle.std.specs.Prelude.{List, ℕ};

    /// How an answer ends.
    type Status: ExitStatus;

    // The arguments request this.
    ghost requests: { List (List ℕ) → Self → Type 0 };

    // The arguments ask for the input.
    ghost asks: { List (List ℕ) → Type 0 };

    // The output and its status are right for the arguments and the bytes of the input.
    ghost answers: { List (List ℕ) → List ℕ → List ℕ → Self.Status → Type 0 };

    // The most bytes of an input that are read.
    ghost limit: { ℕ };

    /// Reads what the arguments request.
    fn request(alloc: Global, args: &'a [String]) -> Result<Self, NoMemory>
        ensures { IfOk result (requests (map string_bytes args.now)) };

    /// The most bytes of an input that are read.
    fn input_limit(&self) -> u64
        ensures { result ≡ limit };

    /// Whether the arguments ask for the input.
    fn asks_input(&self) -> bool
        requires known { IsRequested requests self.now }
        ensures exact { (args : List (List ℕ)) → requests args self.now →
            (IsTrue result ↔ asks args) }
        ensures unasked { (args : List (List ℕ)) → NeedsNoInput (asks args) (answers args) };

    /// The reply to the whole input, or to no bytes if the arguments ask for none. The bytes are
    /// given away, so that a program keeps them no longer than it reads them.
    fn reply_to(&self, alloc: Global, input: Bytes) -> Result<Reply<Self::Status>, NoMemory>
        requires known { IsRequested requests self.now }
        requires short { length input ≤ limit }
        ensures { (args : List (List ℕ)) → requests args self.now →
            IfOk result (λ reply. answers args input reply.text reply.status) };

    /// The reply to an input that is too long.
    fn too_long(&self, alloc: Global) -> Result<Reply<Self::Status>, NoMemory>
        requires known { IsRequested requests self.now }
        ensures { (args : List (List ℕ)) → requests args self.now → asks args →
            IfOk result (λ reply. (bytes : List ℕ) → limit < length bytes
            → answers args bytes reply.text reply.status) };
}
