//! The two finite maps of a state, kept as rows. Contracts see the map, so the order of the rows doesn't matter.

ghost use Rattle.std.specs.Prelude.{◌≡◌, map, MatchOption, OnOk, None};
ghost use Rattle.std.specs.FinMap.{from_entries, get, insert, remove};
ghost use Rattle.std.specs.Ordering.{eq_by_cmp};
ghost use Rattle.rio_model.specs.Names.{name_cmp};

use crate::node::Node;
use rio_base::{Ino, Octets};
use std::alloc::AllocError;
use std::marker::Model;

/// A name in a directory.
#[derive(Debug, Drop)]
pub struct NameRow {
    /// The directory.
    pub dir: Ino,
    /// The name.
    pub name: Octets,
    /// What it names.
    pub ino: Ino,
}

impl NameRow {
    /// Whether this row is of a directory's name.
    fn is_at(&self, dir: Ino, name: &[u8]) -> bool
        ensures { result ≡ eq_by_cmp name_cmp (dir.0, name.now) (self.now.dir.0, self.now.name) }
    {
        dir.0 == self.dir.0 && name == self.name.as_slice()
    }
}

/// All names: what each directory's names name. Where two rows have one directory and name, the first counts.
#[derive(Debug, Drop)]
pub struct NameRows {
    rows: Vec<NameRow>,
}

impl Model for NameRows {
    ghost use Rattle.std.specs.FinMap as map;
    ghost use Rattle.std.specs.Coded.{coded_ℕ, coded_list, coded×};
    ghost use Rattle.rio_model.specs.Names.{Names, row_entries};

    ghost Value = { Names };

    ghost coded = { map.code (coded× coded_ℕ (coded_list coded_ℕ)) coded_ℕ };

    ghost view = { λ a. map.from_entries (row_entries a.rows.items) };
}

impl NameRows {
    ghost use Rattle.rio_model.specs.Names.{row_entries};

    /// The rows, lent.
    pub fn as_slice(&self) -> &[NameRow]
        ensures { self.now ≡ from_entries (row_entries result.now) }
    {
        self.rows.as_slice()
    }

    /// The rows, given back.
    pub fn into_vec(self) -> Vec<NameRow>
        ensures { self ≡ from_entries (row_entries result.items) }
    {
        self.rows
    }

    /// What a directory's name names.
    pub fn get(&self, dir: Ino, name: &[u8]) -> Option<Ino>
        ensures { MatchOption result (get self.now (dir.0, name.now) ≡ None) (λ i. get self.now (dir.0, name.now) ≡ Some i.0) }
    {
        for row in self.as_slice() {
            if row.is_at(dir, name) {
                return Some(row.ino);
            }
        }
        None
    }

    /// Lets a directory's name name an inode, in place of what it named.
    pub fn insert(&mut self, row: NameRow) -> Result<(), AllocError>
        ensures { OnOk result (self.new ≡ insert self.old (row.dir.0, row.name) row.ino.0) }
    {
        self.rows.insert(0, row)?;
        Ok(())
    }

    /// Lets a directory's name name nothing.
    pub fn remove(&mut self, dir: Ino, name: &[u8])
        ensures { self.new ≡ remove self.old (dir.0, name.now) }
    {
        self.rows.retain(|row| !row.is_at(dir, name));
    }
}

impl From<Vec<NameRow>> for NameRows {
    ghost use Rattle.std.specs.Prelude.{◌≡◌};
    ghost use Rattle.std.specs.FinMap.{from_entries};
    ghost use Rattle.rio_model.specs.Names.{row_entries};

    ghost from_gives = { λ rows made. made ≡ from_entries (row_entries rows.items) };

    fn from(rows: Vec<NameRow>) -> NameRows {
        NameRows { rows }
    }
}

/// An inode and what it stands for.
#[derive(Debug, Drop)]
pub struct NodeRow {
    /// The inode.
    pub ino: Ino,
    /// What it stands for.
    pub node: Node,
}

/// All nodes by their inodes. Where two rows have one inode, the first counts.
#[derive(Debug, Drop)]
pub struct NodeRows {
    rows: Vec<NodeRow>,
}

impl Model for NodeRows {
    ghost use Rattle.std.specs.FinMap as map;
    ghost use Rattle.std.specs.Coded.{coded_ℕ};
    ghost use Rattle.rio_model.specs.Nodes.{Nodes, coded_node, node_entries};

    ghost Value = { Nodes };

    ghost coded = { map.code coded_ℕ coded_node };

    ghost view = { λ a. map.from_entries (node_entries a.rows.items) };
}

impl NodeRows {
    ghost use Rattle.rio_model.specs.Nodes.{node_entries};

    /// The rows, lent.
    pub fn as_slice(&self) -> &[NodeRow]
        ensures { self.now ≡ from_entries (node_entries result.now) }
    {
        self.rows.as_slice()
    }

    /// The rows, given back.
    pub fn into_vec(self) -> Vec<NodeRow>
        ensures { self ≡ from_entries (node_entries result.items) }
    {
        self.rows
    }

    /// What an inode stands for.
    pub fn get(&self, ino: Ino) -> Option<&Node>
        ensures { MatchOption result (get self.now ino.0 ≡ None) (λ node. get self.now ino.0 ≡ Some node.now) }
    {
        for row in self.as_slice() {
            if row.ino.0 == ino.0 {
                return Some(&row.node);
            }
        }
        None
    }

    /// Lets an inode stand for a node, in place of what it stood for.
    pub fn insert(&mut self, row: NodeRow) -> Result<(), AllocError>
        ensures { OnOk result (self.new ≡ insert self.old row.ino.0 row.node) }
    {
        self.rows.insert(0, row)?;
        Ok(())
    }

    /// Lets an inode stand for nothing.
    pub fn remove(&mut self, ino: Ino)
        ensures { self.new ≡ remove self.old ino.0 }
    {
        self.rows.retain(|row| row.ino.0 != ino.0);
    }
}

impl From<Vec<NodeRow>> for NodeRows {
    ghost use Rattle.std.specs.Prelude.{◌≡◌};
    ghost use Rattle.std.specs.FinMap.{from_entries};
    ghost use Rattle.rio_model.specs.Nodes.{node_entries};

    ghost from_gives = { λ rows made. made ≡ from_entries (node_entries rows.items) };

    fn from(rows: Vec<NodeRow>) -> NodeRows {
        NodeRows { rows }
    }
}

impl Clone for NameRow {
    ghost is_clone = { λ old new. new ≡ old };

    fn clone(&self) -> Result<NameRow, AllocError> {
        let name = self.name.clone()?;
        Ok(NameRow {
            dir: self.dir,
            name,
            ino: self.ino,
        })
    }
}

impl Clone for NameRows {
    ghost is_clone = { λ old new. new ≡ old };

    fn clone(&self) -> Result<NameRows, AllocError> {
        let rows = self.rows.clone()?;
        Ok(NameRows { rows })
    }
}

impl Clone for NodeRow {
    ghost is_clone = { λ old new. new ≡ old };

    fn clone(&self) -> Result<NodeRow, AllocError> {
        let node = self.node.clone()?;
        Ok(NodeRow {
            ino: self.ino,
            node,
        })
    }
}

impl Clone for NodeRows {
    ghost is_clone = { λ old new. new ≡ old };

    fn clone(&self) -> Result<NodeRows, AllocError> {
        let rows = self.rows.clone()?;
        Ok(NodeRows { rows })
    }
}
