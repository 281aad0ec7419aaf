ghost use Rattle.std.specs.Prelude.{◌≡◌, [], ◌∷◌, ◌++◌, IfOk, OnOk};

use rg_bytes::Memory;
use std::alloc::Global;
use std::marker::Model;

/// The numbers of a query's aggregator nodes.
#[derive(Debug, Drop)]
pub(crate) struct Path {
    nodes: Vec<u32>,
}

impl Model for Path {
    ghost use Rattle.std.specs.Prelude.{List, ℕ};

    ghost Value = { List ℕ };

    ghost view = { λ p. p.nodes.items };
}

impl Path {
    /// No numbers.
    pub(crate) fn new(alloc: Global) -> Path
        ensures { result ≡ [] }
    {
        Path {
            nodes: Vec::new(alloc),
        }
    }

    /// Adds a number at the end.
    pub(crate) fn push(&mut self, node: u32) -> Result<(), Memory>
        ensures { OnOk result (self.new ≡ self.old ++ node ∷ []) }
    {
        self.nodes.push(node)?;
        Ok(())
    }

    /// An equal path.
    pub(crate) fn copy(&self, alloc: Global) -> Result<Path, Memory>
        ensures { IfOk result (λ path. path ≡ self.now) }
    {
        Ok(Path {
            nodes: Vec::from_slice(alloc, &self.nodes)?,
        })
    }

    pub(crate) fn as_slice(&self) -> &[u32]
        ensures { result.now ≡ self.now }
    {
        &self.nodes
    }
}
