//! Edges, and references to them.
use tao_base::Edge;

/// An edge, or a reference to one.
pub trait AsEdge {
    ghost use Rattle.std.specs.Prelude.{◌≡◌};
    ghost use Rattle.tao_base.specs.declared.edge.Edge.{Edge};

    ghost edge: { Self → Edge };

    fn as_edge(&self) -> &Edge
        ensures { result.now ≡ edge self.now };
}

impl AsEdge for Edge {
    ghost edge = { λ held. held };

    fn as_edge(&self) -> &Edge {
        self
    }
}

impl AsEdge for &Edge {
    ghost edge = { λ reference. reference.now };

    fn as_edge(&self) -> &Edge {
        self
    }
}
