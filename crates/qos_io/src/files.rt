//! Files by their names. The newest file of a name counts, so that to add one takes no memory where
//! its place was made before.
ghost use Rattle.std.specs.Prelude.{◌≡◌, ◌≢◌, ◌++◌, ℕ, [], ◌∷◌, List, Some, IfOk};
ghost use Rattle.std.specs.Option.{option_copied};
ghost use Rattle.std.specs.FinMap as map;

use std::alloc::{AllocError, Global};
use std::marker::Model;
use std::mem;

#[cycle(files)]
#[derive(Drop)]
struct Node {
    name: String,
    bytes: Vec<u8>,
    closed: bool, // a closing made it
    older: Chain,
}

#[cycle(files)]
enum Chain {
    End,
    More(Box<Node>),
}

impl Drop for Chain {
    fn drop(mut self) {
        loop {
            match self {
                Chain::End => return,
                Chain::More(node) => {
                    let Node {
                        name: _,
                        bytes: _,
                        closed: _,
                        older,
                    } = Box::into_inner(node);
                    self = older;
                }
            }
        }
    }
}

/// A name with memory for its file. A contract sees it as the name.
#[derive(Drop)]
pub(crate) struct Place {
    node: Box<Node>,
}

impl Model for Place {
    ghost use Rattle.std.specs.Prelude.{ℕ, List};
    ghost use Rattle.std.specs.String.{string_bytes};

    ghost Value = { List ℕ };

    ghost view = { λ a. string_bytes a.node.value.name };
}

impl Place {
    /// A place for the file of this name.
    pub(crate) fn new(alloc: Global, name: &str) -> Result<Place, AllocError>
        ensures { IfOk result (λ place. place ≡ name.now) }
    {
        let name = String::from_str(alloc, name)?;
        let node = Node {
            name,
            bytes: Vec::new(alloc),
            closed: false,
            older: Chain::End,
        };
        Ok(Place {
            node: Box::new(alloc, node)?,
        })
    }
}

/// What each name's file holds, and what was closed.
#[derive(Drop)]
pub(crate) struct Files {
    newest: Chain,
}

impl Model for Files {
    ghost use Rattle.qos_io.specs.Memory.{WholeShelfState, whole_shelf_code};

    ghost Value = { WholeShelfState };

    ghost coded = { whole_shelf_code };

    ghost use Rattle.std.specs.FinMap.{from_entries};
    ghost use Rattle.qos_io.specs.Chain.{entries_of, closings_of};

    ghost view = { λ a. record { files = from_entries (entries_of a.newest); closed = closings_of a.newest } };
}

impl Files {
    /// No file.
    pub(crate) fn new() -> Files
        ensures { result ≡ record { files = map.empty; closed = [] } }
    {
        Files { newest: Chain::End }
    }

    /// The file of the place's name now holds these bytes. It takes no memory.
    pub(crate) fn put(&mut self, place: Place, bytes: Vec<u8>)
        ensures put { self.new.files ≡ map.insert self.old.files place bytes.items }
        ensures held { map.get self.new.files place ≡ Some bytes.items }
        ensures others { (n : List ℕ) → n ≢ place → map.get self.new.files n ≡ map.get self.old.files n }
        ensures closed { self.new.closed ≡ self.old.closed }
    {
        let Place { mut node } = place;
        node.bytes = bytes;
        node.closed = false;
        node.older = mem::replace(&mut self.newest, Chain::End);
        self.newest = Chain::More(node);
    }

    /// The same for a sink of these bytes that was closed. It takes no memory.
    pub(crate) fn close(&mut self, place: Place, bytes: Vec<u8>)
        ensures put { self.new.files ≡ map.insert self.old.files place bytes.items }
        ensures held { map.get self.new.files place ≡ Some bytes.items }
        ensures others { (n : List ℕ) → n ≢ place → map.get self.new.files n ≡ map.get self.old.files n }
        ensures closed { self.new.closed ≡ self.old.closed ++ (record { name = place; held = bytes.items } ∷ []) }
    {
        let Place { mut node } = place;
        node.bytes = bytes;
        node.closed = true;
        node.older = mem::replace(&mut self.newest, Chain::End);
        self.newest = Chain::More(node);
    }

    /// What the file of this name holds, or `None` where there is no such file.
    pub(crate) fn get(&self, name: &str) -> Option<&[u8]>
        ensures { option_copied result ≡ map.get self.now.files name.now }
    {
        let mut at = &self.newest;
        while let Chain::More(node) = at {
            if name == node.name.as_str() {
                return Some(node.bytes.as_slice());
            }
            at = &node.older;
        }
        None
    }
}
