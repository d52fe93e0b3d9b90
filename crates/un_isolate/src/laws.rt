//! What the needed ports are good for, and what the lists of an isolation are, each as what a function ensures that does nothing.

ghost use Rattle.un_isolate.specs.Laws.{SeparationLaw, LeastLaw, InnerListLaw, BorderListLaw, FirstInTheWayLaw, NeededListLaw, PartListLaw, SameIsolationLaw, IsolatingRowsLaw, ClearStartsLaw};

/// The needed ports separate.
pub fn separation()
    ensures { SeparationLaw }
{}

/// Each set of ports of the border that separates has each needed port.
pub fn least()
    ensures { LeastLaw }
{}

/// Of the nodes that a trace reaches, the list of inner nodes has exactly those that walks reach without an isolating port.
pub fn inner_list()
    ensures { InnerListLaw }
{}

/// The list of the border has exactly the isolating nodes to which a walk goes from an inner node.
pub fn border_list()
    ensures { BorderListLaw }
{}

/// The port that is named as standing in the way is the least one that does.
pub fn first_in_the_way()
    ensures { FirstInTheWayLaw }
{}

/// The list of needed ports has exactly the needed ones.
pub fn needed_list()
    ensures { NeededListLaw }
{}

/// The list of the part has exactly what walks reach once some ports are shut.
pub fn part_list()
    ensures { PartListLaw }
{}

/// Over two grounds with the same areas and the same entries at the reached nodes the reply is the same.
pub fn same_isolation()
    ensures { SameIsolationLaw }
{}

/// A node of a row isolates over all features exactly where the row does.
pub fn isolating_rows()
    ensures { IsolatingRowsLaw }
{}

/// Over kept ground no start isolates where none is dirty and no start's row isolates.
pub fn clear_starts()
    ensures { ClearStartsLaw }
{}
