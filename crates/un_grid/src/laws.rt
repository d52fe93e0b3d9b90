ghost use Rattle.un_grid.specs.Grids.{InsertLaw, RemoveLaw, ReplaceLaw, StayLaw};

/// A grid to which a row was added holds the ports of all features, this row included.
pub fn insert_law()
    ensures { InsertLaw }
{}

/// A grid from which a row was removed holds the ports of all other features.
pub fn remove_law()
    ensures { RemoveLaw }
{}

/// A grid in which a row was replaced holds the ports of all features, with the row as it is now.
pub fn replace_law()
    ensures { ReplaceLaw }
{}

/// A grid stays one of all features where a change moves no port of any row.
pub fn stay_law()
    ensures { StayLaw }
{}
