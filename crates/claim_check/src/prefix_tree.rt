// The tree of the prefixes of listed paths. Each prefix has a node, so that two are compared by their nodes, and a list by nodes holds
// something for each prefix. It is made in time of the order of the steps listed. The search keeps something else (prefix_sensitize,
// path_tree.rt): the order in which those paths stand side by side that share a prefix, and no node. Proofs name prefixes in any order,
// by path and number of steps, and by nodes each is found at once.
ghost use Rattle.std.specs.Prelude.{◌≡◌, ◌+◌, ◌<◌, ◌≤◌, ◌↔◌, ◌∷◌, ◌++◌, [], All, IfOk, IsTrue, List, OnOk, length, slice_index_or, sum_by};
ghost use Rattle.pd_base.specs.declared.limits.TheConstants.{MOST_PATHS};
ghost use Rattle.pd_base.specs.Route.{Route};
ghost use Rattle.netlist.specs.declared.limits.TheConstants.{MOST_LEVELS};
ghost use Rattle.claim_check.specs.Prefixes.{AreTreeNodes, no_nodes, node_at};
ghost use Rattle.claim_check.specs.PrefixNodes.{AreNodesOf, ArePut, IsPut, IsTreeOf};

use indexmap::IndexSet;
use pd_base::{FlatLists, LineId, OutOfMemory, Path, PinRef};
use std::alloc::Global;
use std::marker::Model;

// For each listed path the nodes of its prefixes, from the source alone to the whole path, and how many nodes the paths before it have;
// and how many nodes there are.
#[derive(Drop)]
pub(crate) struct PrefixTree {
    rows: FlatLists<u32>,
    before: Vec<u32>,
    count: u32,
}

impl Model for PrefixTree {
    ghost use Rattle.claim_check.specs.Prefixes.{Nodes};

    ghost Value = { Nodes };

    ghost view = { λ t. record { rows = t.rows; before = t.before.items; count = t.count } };
}

// A prefix: its source, or the node of the prefix that is a step shorter and its last pin.
#[derive(Clone, Copy, PartialEq, Eq, Hash)]
enum Prefix {
    Source(LineId),
    Longer { shorter: u32, pin: PinRef },
}

impl PrefixTree {
    // The tree of these paths.
    pub(crate) fn new(alloc: Global, paths: &[Path]) -> Result<PrefixTree, OutOfMemory>
        requires few { length paths.now ≤ MOST_PATHS }
        requires short { All (λ route. length route.steps ≤ MOST_LEVELS) paths.now }
        ensures { IfOk result (AreTreeNodes paths.now) }
    {
        let mut tree = PrefixTree::empty(alloc, paths.len())?;
        tree.add_paths(alloc, paths)?;
        Ok(tree)
    }

    // The tree of no path, with room for so many.
    fn empty(alloc: Global, room: usize) -> Result<PrefixTree, OutOfMemory>
        ensures { IfOk result (λ tree. tree ≡ no_nodes) }
    {
        let before = Vec::with_capacity(alloc, room)?;
        Ok(PrefixTree {
            rows: FlatLists::with_capacity(alloc, room, 0)?,
            before,
            count: 0,
        })
    }

    // Adds these paths to the tree of none. The set of their prefixes stands here alone, so that it is dropped at few places.
    fn add_paths(&mut self, alloc: Global, paths: &[Path]) -> Result<(), OutOfMemory>
        requires none { self.old ≡ no_nodes }
        requires few { length paths.now ≤ MOST_PATHS }
        requires short { All (λ route. length route.steps ≤ MOST_LEVELS) paths.now }
        ensures { OnOk result (AreTreeNodes paths.now self.new) }
    {
        let mut prefixes = IndexSet::new(alloc);
        for path in paths {
            self.add_path(alloc, &mut prefixes, path)?;
        }
        Ok(())
    }

    // How many nodes there are.
    pub(crate) fn count(&self) -> u32
        ensures { result ≡ self.now.count }
    {
        self.count
    }

    // The nodes of the prefixes of the path in a row.
    pub(crate) fn nodes(&self, row: usize) -> &[u32]
        requires { row < length self.now.rows }
        ensures { result.now ≡ slice_index_or self.now.rows row [] }
    {
        self.rows.list(row)
    }

    // Whether a path before a row has the prefix of so many steps of the row's path.
    pub(crate) fn is_known(&self, row: usize, steps: usize) -> bool
        requires row { row < length self.now.rows }
        requires before { row < length self.now.before }
        requires steps { steps < length (slice_index_or self.now.rows row []) }
        ensures { IsTrue result ↔ (node_at self.now row steps < slice_index_or self.now.before row 0) }
    {
        self.nodes(row)[steps] < self.before[row]
    }

    // Adds a path behind those whose tree this is.
    fn add_path(
        &mut self,
        alloc: Global,
        prefixes: &mut IndexSet<Prefix>,
        path: &Path,
    ) -> Result<(), OutOfMemory>
        requires room { sum_by length self.old.rows + length path.now.steps < u32.MAX }
        requires few { length prefixes.old.keys ≤ sum_by length self.old.rows }
        ensures tree { OnOk result ((routes : List Route) → IsTreeOf routes prefixes.old.keys self.old
            → IsTreeOf (routes ++ path.now ∷ []) prefixes.new.keys self.new) }
        ensures room { OnOk result (sum_by length self.new.rows ≡ sum_by length self.old.rows + length path.now.steps + 1) }
        ensures few { OnOk result (length prefixes.new.keys ≤ sum_by length self.new.rows) }
    {
        let before = prefixes.len() as u32;
        let nodes = nodes_of(alloc, prefixes, path)?;
        self.before.push(before)?;
        self.rows.push(nodes.as_slice())?;
        self.count = prefixes.len() as u32;
        Ok(())
    }
}

// The nodes of the prefixes of a path, which are put into the set where they are new.
fn nodes_of(
    alloc: Global,
    prefixes: &mut IndexSet<Prefix>,
    path: &Path,
) -> Result<Vec<u32>, OutOfMemory>
    requires room { length prefixes.old.keys + length path.now.steps < u32.MAX }
    ensures nodes { IfOk result (λ nodes. AreNodesOf prefixes.new.keys path.now nodes.items) }
    ensures put { IfOk result (λ nodes. ArePut prefixes.old.keys prefixes.new.keys nodes.items) }
{
    let mut nodes = Vec::with_capacity(alloc, path.steps().len() + 1)?;
    let mut node = node_of(prefixes, Prefix::Source(path.source()))?;
    nodes.push_reserved(node);
    for pin in path.steps() {
        node = node_of(
            prefixes,
            Prefix::Longer {
                shorter: node,
                pin: *pin,
            },
        )?;
        nodes.push_reserved(node);
    }
    Ok(nodes)
}

// The node of a prefix, which is put into the set where it is new.
fn node_of(prefixes: &mut IndexSet<Prefix>, prefix: Prefix) -> Result<u32, OutOfMemory>
    requires { length prefixes.old.keys < u32.MAX }
    ensures { IfOk result (IsPut prefixes.old.keys prefix prefixes.new.keys) }
{
    let (node, _) = prefixes.insert_full(prefix)?;
    Ok(node as u32)
}
