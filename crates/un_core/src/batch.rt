//! Batches of edits.
ghost use Rattle.std.specs.Prelude.{◌≡◌, ◌≢◌, ◌<◌, ◌≤◌, ◌++◌, ◌∷◌, [], true, length, All, Some, None, IfOk, OnOk, IfErr, option_to_list};
ghost use Rattle.std.specs.Option.{option_map};
ghost use Rattle.un_defs.specs.declared.refusal.Refusal.TheVariants.{Memory};
ghost use Rattle.un_defs.specs.Refusing.{first_refusal, Refuses};
ghost use Rattle.un_defs.specs.Dirtied.{dirtied};
ghost use Rattle.un_facts.specs.Refusals.{is_of_features};
ghost use Rattle.un_core.specs.Step.{MayBeMadeAt, made_at, id_of, touched, made_by_all, ids_of_all, touched_by_all, dirtied_by_batch, batched};
ghost use Rattle.un_core.specs.Cover.{MayAllBeMade};
ghost use Rattle.un_core.specs.Making.{FeaturesGrow, AssociationsGrow, AreasGrow};
ghost use Rattle.un_core.specs.Refusals.{IsBatchRefusal, beside_numbers, first_refused, batch_refusal};

use crate::edit::{reply_id, touched_row};
use crate::net::Net;
use std::alloc::{AllocError, Global};
use un_defs::{Edit, Refusal};
use un_geom::Rect;

/// Why a batch is not made: the refusal, and the place of the edit that is refused, from 0; none where the numbers are used up.
#[derive(Drop)]
pub(crate) struct BatchFault {
    pub(crate) place: Option<u64>,
    pub(crate) refusal: Refusal,
}

impl From<AllocError> for BatchFault {
    ghost use Rattle.std.specs.Prelude.{◌≡◌, None};
    ghost use Rattle.un_defs.specs.declared.refusal.Refusal.TheVariants.{Memory};
    ghost use Rattle.un_core.specs.declared.batch.BatchFault.{BatchFault};

    ghost from_gives = { λ _ f. f ≡ record { place = None; refusal = Memory } };

    fn from(_failed: AllocError) -> BatchFault {
        BatchFault {
            place: None,
            refusal: Refusal::Memory,
        }
    }
}

/// A network once a batch is made, with the id that the reply tells of each edit, the rows that the edits make and change, and the rectangles
/// that they make dirty.
#[derive(Drop)]
pub(crate) struct Batched {
    pub(crate) net: Net,
    pub(crate) ids: Vec<u64>,
    pub(crate) touched: Vec<u64>,
    pub(crate) dirtied: Vec<Rect>,
}

fn add(ids: &mut Vec<u64>, id: Option<u64>) -> Result<(), AllocError>
    ensures { OnOk result (ids.new.items ≡ ids.old.items ++ option_to_list id) }
{
    if let Some(id) = id {
        ids.push(id)?;
    }
    Ok(())
}

impl Batched {
    // Makes one edit more at the moment 0.
    fn make(self, alloc: Global, edit: &Edit) -> Result<Batched, Refusal>
        requires word { is_of_features edit.now ≡ true }
        requires feature { self.net.next_feature < 9_000_000_000_100_000 }
        requires association { self.net.next_association < 9_000_000_000_100_000 }
        requires area { self.net.next_area < 9_000_000_000_100_000 }
        ensures net { IfOk result (λ b. b.net ≡ made_at 0 self.net edit.now) }
        ensures ids { IfOk result (λ b. b.ids.items ≡ self.ids.items ++ id_of self.net edit.now ∷ []) }
        ensures touched { IfOk result (λ b. b.touched.items ≡ self.touched.items ++ touched self.net edit.now) }
        ensures dirtied { IfOk result (λ b. b.dirtied.items
            ≡ self.dirtied.items ++ dirtied self.net.features edit.now) }
        ensures features { IfOk result (λ b. FeaturesGrow self.net b.net) }
        ensures associations { IfOk result (λ b. AssociationsGrow self.net b.net) }
        ensures areas { IfOk result (λ b. AreasGrow self.net b.net) }
        ensures may { OnOk result (MayBeMadeAt 0 self.net edit.now) }
        ensures good { OnOk result (first_refusal (beside_numbers self.net edit.now) ≡ None) }
        ensures bad { Refuses result (first_refusal (beside_numbers self.net edit.now)) }
    {
        let mut batched = self;
        let next = batched.net.next_ids();
        add(&mut batched.ids, Some(reply_id(edit, next)))?;
        add(&mut batched.touched, touched_row(edit, next))?;
        let change = batched.net.change(alloc, edit, 0)?;
        batched.dirtied.extend_from_slice(&change.dirtied)?;
        let edited = batched.net.changed(alloc, edit, 0, change)?;
        Ok(Batched {
            net: edited.net,
            ids: batched.ids,
            touched: batched.touched,
            dirtied: batched.dirtied,
        })
    }
}

impl Net {
    // A batch of no edits.
    fn begun(&self, alloc: Global) -> Result<Batched, AllocError>
        ensures net { IfOk result (λ b. b.net ≡ self.now) }
        ensures ids { IfOk result (λ b. b.ids.items ≡ []) }
        ensures touched { IfOk result (λ b. b.touched.items ≡ []) }
        ensures dirtied { IfOk result (λ b. b.dirtied.items ≡ []) }
    {
        Ok(Batched {
            net: self.share()?,
            ids: Vec::new(alloc),
            touched: Vec::new(alloc),
            dirtied: Vec::new(alloc),
        })
    }

    // The network once each edit of a batch is made on what the one before it left. The version stays, and what they make and change has the
    // moment 0.
    fn make_all(&self, alloc: Global, edits: &[Edit]) -> Result<Batched, BatchFault>
        requires word { All (λ e. is_of_features e ≡ true) edits.now }
        requires few { length edits.now ≤ 256 }
        requires feature { self.now.next_feature < 9_000_000_000_000_000 }
        requires association { self.now.next_association < 9_000_000_000_000_000 }
        requires area { self.now.next_area < 9_000_000_000_000_000 }
        ensures state { IfOk result (λ b. b.net ≡ made_by_all self.now edits.now) }
        ensures ids { IfOk result (λ b. b.ids.items ≡ ids_of_all self.now edits.now) }
        ensures touched { IfOk result (λ b. b.touched.items ≡ touched_by_all self.now edits.now) }
        ensures dirtied { IfOk result (λ b. b.dirtied.items ≡ dirtied_by_batch self.now edits.now) }
        ensures may { OnOk result (MayAllBeMade self.now edits.now) }
        ensures good { OnOk result (first_refused self.now 0 edits.now ≡ None) }
        ensures bad { IfErr result (λ f. f.refusal ≢ Memory →
            (option_map (λ p. p.1) (first_refused self.now 0 edits.now) ≡ Some f.refusal) × (option_map (λ p. p.0) (first_refused self.now 0 edits.now) ≡ f.place)) }
    {
        let mut batched = self.begun(alloc)?;
        for (place, edit) in edits.iter().enumerate() {
            batched = match batched.make(alloc, edit) {
                Ok(more) => more,
                Err(refusal) => {
                    return Err(BatchFault {
                        place: Some(place as u64),
                        refusal,
                    });
                }
            };
        }
        Ok(batched)
    }

    /// The network after a batch of edits, which is one step.
    ///
    /// Each edit is made on what the one before it left. The moment of the rows that a batch makes and changes counts as 0 in it, and is the
    /// new version after it.
    ///
    /// The batch is refused whole: by `Full` where the numbers are used up, and else as the first of its edits that is refused.
    pub(crate) fn batch(&self, alloc: Global, edits: &[Edit]) -> Result<Batched, BatchFault>
        requires word { All (λ e. is_of_features e ≡ true) edits.now }
        requires few { length edits.now ≤ 256 }
        ensures state { IfOk result (λ b. b.net ≡ batched self.now edits.now) }
        ensures ids { IfOk result (λ b. b.ids.items ≡ ids_of_all self.now edits.now) }
        ensures dirtied { IfOk result (λ b. b.dirtied.items ≡ dirtied_by_batch self.now edits.now) }
        ensures good { OnOk result (batch_refusal self.now edits.now ≡ None) }
        ensures bad { IfErr result (λ f. IsBatchRefusal self.now edits.now f.refusal f.place) }
    {
        if let Err(refusal) = self.check_numbers() {
            return Err(BatchFault {
                place: None,
                refusal,
            });
        }
        let moment = self.version + 1;
        let Batched {
            mut net,
            ids,
            touched,
            dirtied,
        } = self.make_all(alloc, edits)?;
        net.facts = net.facts.settle(alloc, &touched, moment)?;
        net.version = moment;
        Ok(Batched {
            net,
            ids,
            touched,
            dirtied,
        })
    }
}
