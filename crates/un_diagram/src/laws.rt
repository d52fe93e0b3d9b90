//! What diagrams keep, and what the diagram of a reply is, each as what a function ensures that does nothing.

ghost use Rattle.un_diagram.specs.Laws.{KeepsConnection, EachInOnePlace, DiagramListLaw, SameDiagramLaw};

/// Walks over open nodes join two kept ports exactly where kept ports and pieces with edges between neighbours do.
pub fn connection_is_kept()
    ensures { KeepsConnection }
{}

/// Each open reached node is kept or in exactly one piece.
pub fn each_in_one_place()
    ensures { EachInOnePlace }
{}

/// Of the nodes that walks reach, the diagram in the reply has exactly the kept ports, the pieces and the edges, and no other diagram has.
pub fn diagram_list()
    ensures { DiagramListLaw }
{}

/// Over two grounds with the same areas and the same entries at the reached nodes the reply is the same.
pub fn same_diagram()
    ensures { SameDiagramLaw }
{}
