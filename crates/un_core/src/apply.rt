//! Commands.
ghost use Rattle.std.specs.Prelude.{◌≡◌, ◌-◌, ◌≤◌, length, true, IfOk, IfSome};
ghost use Rattle.std.specs.List.{list_all};
ghost use Rattle.std.proofs.Common.{inr};
ghost use Rattle.un_schema.specs.declared.place.Place.TheVariants as place;
ghost use Rattle.un_defs.specs.declared.refusal.Refusal.TheVariants as refusal;
ghost use Rattle.un_ask.specs.declared.request.Command.TheVariants as command;
ghost use Rattle.un_ask.specs.declared.reply.Reply.TheVariants as reply;
ghost use Rattle.un_facts.specs.Refusals.{is_of_features};
ghost use Rattle.un_core.specs.Commands.{is_known, word_of, first_and_count, step, state_after, command_reply};
ghost use Rattle.un_machine.specs.Logs.{answer_of, Since};
ghost use Rattle.un_core.specs.Preparing.{IsPreparedAt};

use crate::batch::{BatchFault, Batched};
use crate::edit::{Edited, reply_id};
use crate::net::Net;
use crate::prepared::Prepared;
use crate::update::Updated;
use crate::validate::Validated;
use std::alloc::{AllocError, Global};
use un_ask::{Command, EditWord, NamedRule, Reply};
use un_defs::{Edit, Ids, Refusal};
use un_geom::Rect;
use un_machine::{Applied, Entry, Machine};
use un_schema::{Items, Name, Place};

// The number of the first of so many areas, and how many they are.
fn first_and_count(first: u64, count: u64) -> [u64; 2]
    ensures { result ≡ first_and_count first count }
{
    if count == 0 { [0, 0] } else { [first, count] }
}

// The reply of a refusal at a version; of a batch it also tells the place of the edit that is refused.
fn refusal_reply(version: u64, place: Option<u64>, refusal: Refusal) -> Reply
    ensures { result ≡ reply.Refused refusal place version }
{
    Reply::Refused {
        refusal,
        edit: place,
        version,
    }
}

// The same, as what a step gives.
fn refused(version: u64, place: Option<u64>, refusal: Refusal) -> Applied<Net>
    ensures { answer_of result ≡ inr (reply.Refused refusal place version) }
{
    Applied::Refused {
        reply: refusal_reply(version, place, refusal),
    }
}

// The word of an edit; a rule has none.
fn word_of(edit: &Edit) -> Option<EditWord>
    ensures { result ≡ word_of edit.now }
{
    match edit {
        Edit::Insert { .. } => Some(EditWord::Insert),
        Edit::Reshape { .. } => Some(EditWord::Reshape),
        Edit::Attrs { .. } => Some(EditWord::Attrs),
        Edit::Kind { .. } => Some(EditWord::Kind),
        Edit::Path { .. } => Some(EditWord::Path),
        Edit::Flow { .. } => Some(EditWord::Flow),
        Edit::Ends { .. } => Some(EditWord::Ends),
        Edit::Note { .. } => Some(EditWord::Note),
        Edit::Delete { .. } => Some(EditWord::Delete),
        Edit::Connect { .. } => Some(EditWord::Connect),
        Edit::Contain { .. } => Some(EditWord::Contain),
        Edit::Attach { .. } => Some(EditWord::Attach),
        Edit::Detach { .. } => Some(EditWord::Detach),
        Edit::Controller { .. } => Some(EditWord::Controller),
        Edit::Uncontroller { .. } => Some(EditWord::Uncontroller),
        Edit::Rule { .. } => None,
    }
}

// Whether the edit is one of a row, an association or a controller.
fn is_of_features(edit: &Edit) -> bool
    ensures { result ≡ is_of_features edit.now }
{
    !matches!(edit, Edit::Rule { .. })
}

// The same of each of the edits.
fn are_of_features(edits: &[Edit]) -> bool
    ensures { result ≡ list_all is_of_features edits.now }
{
    edits.iter().all(|edit| is_of_features(edit))
}

// Whether the command is one that requests are read as. A rule has a command of its own and is no edit of them.
fn is_known(command: &Command) -> bool
    ensures { result ≡ is_known command.now }
{
    match command {
        Command::Edit(edit) => is_of_features(edit),
        Command::Batch(edits) => are_of_features(edits.as_slice()),
        Command::Validate { .. } | Command::Update { .. } => true,
        Command::Rule { .. } => true,
    }
}

impl Net {
    // The number of the first of the areas that a later network has beyond this one's, and how many they are.
    fn areas_made(&self, later: &Net) -> [u64; 2]
        requires { self.now.next_area ≤ later.now.next_area }
        ensures { result ≡ first_and_count self.now.next_area (later.now.next_area - self.now.next_area) }
    {
        let first = self.dirty.next_number();
        first_and_count(first, later.dirty.next_number() - first)
    }

    // An edit of a row, an association or a controller.
    fn apply_edit(&self, alloc: Global, edit: &Edit) -> Result<Applied<Net>, AllocError>
        requires known { is_of_features edit.now ≡ true }
        ensures { IfOk result (λ a. answer_of a ≡ step self.now (command.Edit edit.now)) }
    {
        let Some(word) = word_of(edit) else {
            unreachable!()
        };
        match self.edit(alloc, edit) {
            Ok(Edited { net, dirtied }) => {
                let reply = Reply::Edited {
                    areas: self.areas_made(&net),
                    id: reply_id(edit, self.ids),
                    word,
                    version: net.version,
                };
                Ok(Applied::Done {
                    next: net,
                    reply,
                    mark: Items::new(dirtied),
                })
            }
            Err(Refusal::Memory) => Err(AllocError),
            Err(refusal) => Ok(refused(self.version, None, refusal)),
        }
    }

    // A batch of such edits.
    fn apply_batch(&self, alloc: Global, edits: &[Edit]) -> Result<Applied<Net>, AllocError>
        requires known { list_all is_of_features edits.now ≡ true }
        requires few { length edits.now ≤ 256 }
        ensures { IfOk result (λ a. answer_of a ≡ step self.now (command.Batch edits.now)) }
    {
        match self.batch(alloc, edits) {
            Ok(
                Batched {
                    net,
                    ids,
                    touched: _touched,
                    dirtied,
                },
            ) => {
                let reply = Reply::Batch {
                    areas: self.areas_made(&net),
                    ids: Ids::new(ids),
                    version: net.version,
                };
                Ok(Applied::Done {
                    next: net,
                    reply,
                    mark: Items::new(dirtied),
                })
            }
            Err(
                BatchFault {
                    refusal: Refusal::Memory,
                    ..
                },
            ) => Err(AllocError),
            Err(BatchFault { place, refusal }) => Ok(refused(self.version, place, refusal)),
        }
    }

    // A validation.
    fn apply_validate(
        &self,
        alloc: Global,
        extent: Rect,
        hint: Option<&Prepared>,
        since: &[Entry<Net>],
    ) -> Result<Applied<Net>, AllocError>
        requires { IfSome hint (λ h. Since step IsPreparedAt h.now since.now self.now) }
        ensures { IfOk result (λ a. answer_of a ≡ step self.now (command.Validate extent)) }
    {
        match self.validate(alloc, extent, hint, since) {
            Ok(
                Validated {
                    net,
                    cleared,
                    errors,
                },
            ) => {
                let reply = Reply::Validated {
                    cleared,
                    errors,
                    version: net.version,
                };
                Ok(Applied::Done {
                    next: net,
                    reply,
                    mark: Items::new(Vec::new(alloc)),
                })
            }
            Err(Refusal::Memory) => Err(AllocError),
            Err(refusal) => Ok(refused(self.version, None, refusal)),
        }
    }

    // An update of a subnetwork.
    fn apply_update(
        &self,
        alloc: Global,
        tier: &Name,
        subnet: &Name,
    ) -> Result<Applied<Net>, AllocError>
        ensures { IfOk result (λ a. answer_of a ≡ step self.now (command.Update tier.now subnet.now)) }
    {
        match self.update(alloc, tier, subnet) {
            Ok(Updated { net, reply }) => Ok(Applied::Done {
                next: net,
                reply,
                mark: Items::new(Vec::new(alloc)),
            }),
            Err(Refusal::Memory) => Err(AllocError),
            Err(refusal) => Ok(refused(self.version, None, refusal)),
        }
    }

    // A rule.
    fn apply_rule(&self, alloc: Global, rule: &NamedRule) -> Result<Applied<Net>, AllocError>
        ensures { IfOk result (λ a. answer_of a ≡ step self.now (command.Rule rule.now)) }
    {
        match self.rule(alloc, rule) {
            Ok(Edited { net, dirtied }) => {
                let reply = Reply::Ruled {
                    areas: self.areas_made(&net),
                    rules: net.rules(),
                    version: net.version,
                };
                Ok(Applied::Done {
                    next: net,
                    reply,
                    mark: Items::new(dirtied),
                })
            }
            Err(Refusal::Memory) => Err(AllocError),
            Err(refusal) => Ok(refused(self.version, None, refusal)),
        }
    }

    // A command that is known.
    fn apply_known(
        &self,
        alloc: Global,
        command: &Command,
        hint: Option<&Prepared>,
        since: &[Entry<Net>],
    ) -> Result<Applied<Net>, AllocError>
        requires known { is_known command.now ≡ true }
        requires prepared { IfSome hint (λ h. Since step IsPreparedAt h.now since.now self.now) }
        ensures { IfOk result (λ a. answer_of a ≡ step self.now command.now) }
    {
        match command {
            Command::Edit(edit) => self.apply_edit(alloc, edit),
            Command::Batch(edits) => self.apply_batch(alloc, edits.as_slice()),
            Command::Validate { extent } => self.apply_validate(alloc, *extent, hint, since),
            Command::Update { tier, subnet } => self.apply_update(alloc, tier, subnet),
            Command::Rule { rule } => self.apply_rule(alloc, rule),
        }
    }

    // The network once an edit is made, with its reply; or the network as it is, with that of a refusal.
    fn stepped_by_edit(self, alloc: Global, edit: &Edit) -> Result<(Net, Reply), AllocError>
        requires known { is_of_features edit.now ≡ true }
        ensures state { IfOk result (λ r. r.0 ≡ state_after self (command.Edit edit.now)) }
        ensures reply { IfOk result (λ r. r.1 ≡ command_reply self (command.Edit edit.now)) }
    {
        let Some(word) = word_of(edit) else {
            unreachable!()
        };
        let version = self.version;
        if let Err(refusal) = self.check_numbers() {
            return Ok((self, refusal_reply(version, None, refusal)));
        }
        let moment = version + 1;
        match self.change(alloc, edit, moment) {
            Ok(change) => {
                let ids = self.ids;
                let first = self.dirty.next_number();
                let Edited { mut net, dirtied } = self.changed(alloc, edit, moment, change)?;
                net.version = moment;
                let reply = Reply::Edited {
                    areas: first_and_count(first, dirtied.len() as u64),
                    id: reply_id(edit, ids),
                    word,
                    version: moment,
                };
                Ok((net, reply))
            }
            Err(Refusal::Memory) => Err(AllocError),
            Err(refusal) => Ok((self, refusal_reply(version, None, refusal))),
        }
    }

    /// The network once a command is accepted, with the reply; or the network as it is, with the reply of a refusal. What no other network
    /// shares is changed in place, so that for want of memory no network is left.
    pub fn stepped(self, alloc: Global, command: &Command) -> Result<(Net, Reply), AllocError>
        ensures state { IfOk result (λ r. r.0 ≡ state_after self command.now) }
        ensures reply { IfOk result (λ r. r.1 ≡ command_reply self command.now) }
    {
        if let Command::Edit(edit) = command
            && is_of_features(edit)
        {
            return self.stepped_by_edit(alloc, edit);
        }
        match self.step(alloc, command)? {
            Applied::Done { next, reply, .. } => Ok((next, reply)),
            Applied::Refused { reply } => Ok((self, reply)),
        }
    }

    /// The step of a command: the next network, the reply and the rectangles that it made dirty, or the reply of a refusal.
    ///
    /// An edit or a batch that adds a rule, which no request is read as, is refused by `BadRequest`. It answers an error only for want of
    /// memory, which changes nothing.
    pub fn step(&self, alloc: Global, command: &Command) -> Result<Applied<Net>, AllocError>
        ensures { IfOk result (λ a. answer_of a ≡ step self.now command.now) }
    {
        self.step_prepared(alloc, command, None, &[])
    }

    // The same. What was prepared of the command changes nothing of it.
    fn step_prepared(
        &self,
        alloc: Global,
        command: &Command,
        hint: Option<&Prepared>,
        since: &[Entry<Net>],
    ) -> Result<Applied<Net>, AllocError>
        requires { IfSome hint (λ h. Since step IsPreparedAt h.now since.now self.now) }
        ensures { IfOk result (λ a. answer_of a ≡ step self.now command.now) }
    {
        if is_known(command) {
            self.apply_known(alloc, command, hint, since)
        } else {
            Ok(refused(self.version, None, Refusal::BadRequest { place: Place::Do }))
        }
    }
}

/// A network steps by commands. A hint has stars that were built in advance for a validation, and the mark of a command is the rectangles that
/// it made dirty, in order.
impl Machine for Net {
    ghost use Rattle.un_core.specs.Commands.{step};
    ghost use Rattle.un_core.specs.Preparing.{IsPreparedAt};

    type Cmd = Command;

    type Reply = Reply;

    type Hint = Prepared;

    type Mark = Items<Rect>;

    ghost step = { step };

    ghost prepared = { IsPreparedAt };

    ghost place = { λ h. h.version };

    fn apply(
        &self,
        alloc: Global,
        cmd: &Command,
        hint: Option<&Prepared>,
        since: &[Entry<Net>],
    ) -> Result<Applied<Net>, AllocError> {
        self.step_prepared(alloc, cmd, hint, since)
    }

    fn prepared_at(hint: &Prepared) -> u64 {
        hint.version
    }

    fn copy_reply(alloc: Global, reply: &Reply) -> Result<Reply, AllocError> {
        reply.copy(alloc)
    }
}
