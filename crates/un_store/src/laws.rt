//! What holds of the rows and of edits of them, each as what a function ensures that does nothing.
ghost use Rattle.un_store.specs.Edits.{RowsAloneLaw, FitsAloneLaw};
ghost use Rattle.un_store.specs.Fitting.{InsertFitsLaw, EditFitsLaw, MayBeMadeLaw};

/// Of a network, the edits of this crate ask no more than the names of its schema and its rows.
pub fn rows_alone()
    ensures rows { RowsAloneLaw }
    ensures fits { FitsAloneLaw }
{}

/// An insert for which no refusal is due makes a row that fits its kind.
#[tactic(auto, using(crate::proofs::Fitting::insert_fits))]
pub fn inserts_fit()
    ensures { InsertFitsLaw }
{}

/// Where all rows fit their kinds, each edit of a row for which no refusal is due leaves one that fits.
#[tactic(auto, using(crate::proofs::EditsFit::edit_fits))]
pub fn edits_fit()
    ensures { EditFitsLaw }
{}

/// Of a network that has rows alone, and each fits its kind, an edit of rows for which no refusal is due may be made.
#[tactic(auto, using(crate::proofs::EditsFit::may_be_made))]
pub fn edits_may_be_made()
    ensures { MayBeMadeLaw }
{}
