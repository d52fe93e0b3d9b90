//! A network that commands change in place.
//!
//! Where memory ends while an edit changes a network in place, no network is left. So beside it stand the network of the last checkpoint, with
//! which it shares its pages, and the commands since: from these two it is made again. After a checkpoint the first edit of a page copies it,
//! and later ones change the copy.
ghost use Rattle.std.specs.Prelude.{◌≡◌, ◌++◌, ◌∷◌, ◌≢◌, [], Some, None, IfOk, IfSome, OnOk, OnErr};
ghost use Rattle.un_core.specs.Commands.{state_after, command_reply};
ghost use Rattle.un_core.specs.Answers.{answer};
ghost use Rattle.un_script.specs.Redone.{redone};

use std::alloc::{AllocError, Global};
use std::marker::Model;
use un_ask::{Command, Query, Reply};
use un_core::Net;
use un_steps::Steps;

/// The work after which a checkpoint is due: so many edits, or areas cleared.
const MOST_WORK: u64 = 1_024;

/// A network, with the one of the last checkpoint and the commands since then.
#[derive(Drop)]
pub(crate) struct Recoverable {
    checkpoint: Net,
    since: Vec<Command>,
    // What the commands since the checkpoint cost, in edits.
    work: u64,
    // Whether memory ended since the checkpoint. Then no command changes the network in place.
    is_short: bool,
    net: Option<Net>,
}

impl Model for Recoverable {
    ghost use Rattle.std.specs.Coded.{codes};
    ghost use Rattle.un_tiers.specs.contracts.setup.Setup as setup_row;
    ghost use Rattle.un_core.specs.State.{State};
    ghost use Rattle.un_script.specs.Redone.{redone, IsRedone};

    ghost Value = { State };

    ghost coded = { Prim.hlevel (codes, setup_row.the_row.coded) };

    ghost view = { λ r. redone r.checkpoint r.since.items };

    ghost invariant = { λ r. IsRedone r.checkpoint r.since.items r.net };
}

// What a command costs, in edits. An area that is cleared counts as one.
fn work_of(command: &Command, reply: &Reply) -> u64 {
    match (command, reply) {
        (Command::Edit(_), _) => 1,
        (Command::Batch(edits), _) => edits.as_slice().len() as u64,
        (Command::Validate { .. }, Reply::Validated { cleared, .. }) => cleared.saturating_add(1),
        (Command::Validate { .. }, _) => 1,
        (Command::Update { .. } | Command::Rule { .. }, _) => MOST_WORK,
    }
}

/// The network once commands are applied to another, one after another.
pub(crate) fn after(alloc: Global, net: Net, commands: &[Command]) -> Result<Net, AllocError>
    ensures { IfOk result (λ next. next ≡ redone net commands.now) }
{
    let mut last = net;
    for command in commands {
        let (next, _reply) = last.stepped(alloc, command)?;
        last = next;
    }
    Ok(last)
}

// The network that the commands since a checkpoint lead to.
fn redo(alloc: Global, checkpoint: &Net, since: &[Command]) -> Result<Net, AllocError>
    ensures { IfOk result (λ net. net ≡ redone checkpoint.now since.now) }
{
    after(alloc, checkpoint.share()?, since)
}

// Hands a network over for a command to change. Where it is kept, it is one that shares its pages, and the network itself stays.
fn handed(slot: &mut Option<Net>, is_kept: bool) -> Result<Net, AllocError>
    ensures net { IfOk result (λ net. slot.old ≡ Some net) }
    ensures kept { IfSome slot.new (λ net. slot.old ≡ Some net) }
{
    if is_kept {
        match slot {
            Some(net) => net.share(),
            None => Err(AllocError),
        }
    } else {
        match slot.take() {
            Some(net) => Ok(net),
            None => Err(AllocError),
        }
    }
}

// Does a command to a network. For want of memory the network is as it was, or there is none.
fn change(
    alloc: Global,
    slot: &mut Option<Net>,
    is_kept: bool,
    command: &Command,
) -> Result<Reply, AllocError>
    ensures ok { IfOk result (λ reply. IfSome slot.old (λ net.
        (slot.new ≡ Some (state_after net command.now)) × (reply ≡ command_reply net command.now))) }
    ensures some { OnOk result (slot.old ≢ None) }
    ensures err { OnErr result (IfSome slot.new (λ net. slot.old ≡ Some net)) }
{
    let net = handed(slot, is_kept)?;
    let (net, reply) = net.stepped(alloc, command)?;
    *slot = Some(net);
    Ok(reply)
}

// Does a command to a network, and notes it behind those before it. For want of memory none is noted, and the network is as it was, or there is
// none. Answers the reply and the work.
fn change_and_note(
    alloc: Global,
    slot: &mut Option<Net>,
    since: &mut Vec<Command>,
    is_kept: bool,
    command: Command,
) -> Result<(Reply, u64), AllocError>
    ensures net { IfOk result (λ done. IfSome slot.old (λ net.
        (slot.new ≡ Some (state_after net command)) × (done.0 ≡ command_reply net command))) }
    ensures some { OnOk result (slot.old ≢ None) }
    ensures noted { OnOk result (since.new.items ≡ since.old.items ++ command ∷ []) }
    ensures err { OnErr result (IfSome slot.new (λ net. slot.old ≡ Some net)) }
    ensures not_noted { OnErr result (since.new.items ≡ since.old.items) }
{
    since.reserve(1)?;
    let reply = change(alloc, slot, is_kept, &command)?;
    let work = work_of(&command, &reply);
    since.push_reserved(command);
    Ok((reply, work))
}

impl Recoverable {
    /// A network at a checkpoint.
    pub(crate) fn new(alloc: Global, net: Net) -> Result<Recoverable, AllocError>
        ensures { IfOk result (λ r. r ≡ net) }
    {
        let checkpoint = net.share()?;
        Ok(Recoverable {
            checkpoint,
            since: Vec::new(alloc),
            work: 0,
            is_short: false,
            net: Some(net),
        })
    }

    // Makes the network again, where want of memory left none.
    fn recover(&mut self, alloc: Global) -> Result<(), AllocError>
        ensures { self.new ≡ self.old }
    {
        if self.net.is_none() {
            self.net = Some(redo(alloc, &self.checkpoint, &self.since)?);
        }
        Ok(())
    }

    // Begins a new checkpoint, where one is due, so that little has to be done again where memory ends.
    fn check(&mut self) -> Result<(), AllocError>
        ensures { self.new ≡ self.old }
    {
        if self.work >= MOST_WORK
            && let Some(net) = &self.net
        {
            self.checkpoint = net.share()?;
            self.since.clear();
            self.work = 0;
            self.is_short = false;
        }
        Ok(())
    }

    // Has a network to change, and a new checkpoint, where one is due.
    fn make_ready(&mut self, alloc: Global) -> Result<(), AllocError>
        ensures { self.new ≡ self.old }
    {
        self.recover(alloc)?;
        self.check()
    }

    /// Does a command, or refuses it. Want of memory changes nothing.
    pub(crate) fn step(&mut self, alloc: Global, command: Command) -> Result<Reply, AllocError>
        ensures state { OnOk result (self.new ≡ state_after self.old command) }
        ensures reply { IfOk result (λ r. r ≡ command_reply self.old command) }
        ensures err { OnErr result (self.new ≡ self.old) }
    {
        self.make_ready(alloc)?;
        let is_kept = self.is_short;
        match change_and_note(alloc, &mut self.net, &mut self.since, is_kept, command) {
            Ok((reply, work)) => {
                self.work = self.work.saturating_add(work);
                Ok(reply)
            }
            Err(AllocError) => {
                self.is_short = true;
                Err(AllocError)
            }
        }
    }

    /// Answers a query. It changes nothing.
    pub(crate) fn answer<L>(
        &mut self,
        alloc: Global,
        query: &Query,
        steps: &mut Steps<L>,
    ) -> Result<Reply, AllocError>
        ensures reply { IfOk result (λ r. r ≡ answer self.old query.now) }
        ensures state { self.new ≡ self.old }
    {
        self.recover(alloc)?;
        match &self.net {
            Some(net) => net.answer(alloc, query, steps),
            None => Err(AllocError),
        }
    }
}
