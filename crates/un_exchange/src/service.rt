//! What requests ask, and how replies and answers are printed.
ghost use Rattle.std.specs.Prelude.{◌≡◌, ◌≤◌, [], IfOk, vec_capacity};

use crate::asked::Asked;
use crate::page::Page;
use crate::status::Status;
use std::alloc::{AllocError, Global};
use un_journal::receipt::Ahead;
use un_machine::Machine;
use un_turns::Answers;

/// How many bytes are reserved for the reply to a command.
pub const REPLY_ROOM: usize = 8_192;

/// Reads what requests ask of a machine, and prints what they are answered.
pub trait Service<M: Machine>: Answers<M> {
    ghost use Rattle.std.specs.Prelude.{ℕ, List};
    ghost use Rattle.un_exchange.specs.declared.asked.Asked.{Asked as AskedOf};
    ghost use Rattle.un_exchange.specs.Pages.{conflict_page, page, reversed_page};
    ghost use Rattle.un_exchange.specs.Exchanges.{Printing, CanPrint};

    // What a method, a path and a body ask for.
    ghost asks: { List ℕ → List ℕ → List ℕ → AskedOf M.Cmd Self.Query → Type 0 };

    // What replies, answers, past answers and refusals of versions are printed as.
    ghost printing: { Printing M.Reply Self.Answer };

    // A reply that fits in the room for it.
    ghost fits: { M.Reply → Type 0 };

    /// What a request asks for.
    fn read(
        &self,
        alloc: Global,
        method: &[u8],
        path: &[u8],
        body: &[u8],
    ) -> Result<Asked<M::Cmd, Self::Query>, AllocError>
        ensures { IfOk result (asks method.now path.now body.now) };

    /// Each reply to the command can be printed.
    fn can_print(cmd: &M::Cmd)
        ensures { CanPrint M.step fits cmd.now };

    /// Prints the reply to a command, which allocates nothing, and returns its status.
    fn print_reply(reply: &M::Reply, out: &mut Vec<u8>) -> Status
        requires fits { fits reply.now }
        requires empty { out.old.items ≡ [] }
        requires room { REPLY_ROOM ≤ vec_capacity out.old }
        ensures page { printing.reply reply.now ≡ page result out.new.items }
        ensures capacity { vec_capacity out.old ≤ vec_capacity out.new };

    /// Prints the refusal of a query that asks for more entries than the log has, whose status is `Conflict`. It allocates nothing.
    fn print_ahead(ahead: &Ahead, out: &mut Vec<u8>)
        requires empty { out.old.items ≡ [] }
        requires room { REPLY_ROOM ≤ vec_capacity out.old }
        ensures page { conflict_page (printing.ahead ahead.now.seen ahead.now.latest) ≡ conflict_page out.new.items }
        ensures capacity { vec_capacity out.old ≤ vec_capacity out.new };

    /// Prints the refusal of a query at a past version that the log doesn't have yet, whose status is `Conflict`. `seen` of
    /// it is the version. It allocates nothing.
    fn print_not_yet(ahead: &Ahead, out: &mut Vec<u8>)
        requires empty { out.old.items ≡ [] }
        requires room { REPLY_ROOM ≤ vec_capacity out.old }
        ensures page { conflict_page (printing.not_yet ahead.now.seen ahead.now.latest) ≡ conflict_page out.new.items }
        ensures capacity { vec_capacity out.old ≤ vec_capacity out.new };

    /// Prints the refusal of a query about two versions of which the first comes after the second, whose status is `Unprocessable`. It
    /// allocates nothing.
    fn print_reversed(version: u64, since: u64, upto: u64, out: &mut Vec<u8>)
        requires empty { out.old.items ≡ [] }
        requires room { REPLY_ROOM ≤ vec_capacity out.old }
        ensures page { reversed_page (printing.reversed version since upto) ≡ reversed_page out.new.items }
        ensures capacity { vec_capacity out.old ≤ vec_capacity out.new };

    /// What an answer is printed as.
    fn answer_page(answer: Self::Answer) -> Page
        ensures { result ≡ printing.answer answer };

    /// What an answer at a past version is printed as, with the version of its response.
    fn past_page(alloc: Global, version: u64, answer: Self::Answer) -> Result<Page, AllocError>
        ensures { IfOk result (λ page. page ≡ printing.past version answer) };
}
